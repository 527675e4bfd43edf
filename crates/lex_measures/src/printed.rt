//! The lists, drops and stuck sets of a certificate.

ghost use Rattle.std.specs.Prelude.{◌≡◌, ◌<◌, ◌+◌, ◌∷◌, [], IfOk, OnOk, Some, length};
ghost use Rattle.call_components.specs.Partition.{AreComponents};
ghost use Rattle.cert_assembly.specs.Leading.{led_by};
ghost use Rattle.cert_assembly.specs.Parted.{zero_part};
ghost use Rattle.cert_structure.specs.Shape.{body_of, head_of};
ghost use Rattle.lex_measures.specs.Lists.{ArePassed, drops_at, drops_from, lists_at, printed_at, printed_drops};
ghost use Rattle.lex_measures.specs.Lists.{printed_lists, printed_stuck, stuck_of};

use crate::places::{after_call, lists_of, places_of};
use call_components::Components;
use cert_assembly::{copied_refutation, led_by, zero_part};
use cti_terms::{Atom, PredId, Program};
use lex_turns::{FoundLists, MeasureList};
use linear_rows::Multipliers;
use number_tests::{LevelPart, Refutation};
use sequences::Sequence;
use std::alloc::{AllocError, Global};

/// One list of one part of zeros.
fn zero_lists(alloc: Global, width: u32) -> Result<Sequence<Sequence<LevelPart>>, AllocError>
    ensures { IfOk result (λ lists. lists ≡ (zero_part width ∷ []) ∷ []) }
{
    let mut list = Sequence::new(alloc);
    list.push(zero_part(alloc, width)?)?;
    let mut lists = Sequence::new(alloc);
    lists.push(list)?;
    Ok(lists)
}

/// The components of a program, with what is found of the lists of each.
#[derive(Clone, Copy)]
pub(crate) struct Printed<'a> {
    pub(crate) p: &'a Program,
    pub(crate) comps: &'a Components,
    pub(crate) found: &'a [FoundLists],
}

impl Printed<'_> {
    /// The lists of a predicate's component.
    fn lists_at(&self, q: PredId) -> &[MeasureList]
        requires components { AreComponents self.now.p.now self.now.comps.now }
        requires each { length self.now.found.now ≡ length self.now.comps.now.members }
        requires there { q.0 < length self.now.p.now.preds }
        ensures { result.now ≡ lists_at self.now.comps.now self.now.found.now q.0 }
    {
        self.found[self.comps.of(q) as usize].lists.as_slice()
    }

    /// The parts of a predicate in the lists of its component; one list of zeros, where that is not recursive.
    fn printed_at(
        &self,
        alloc: Global,
        q: PredId,
    ) -> Result<Sequence<Sequence<LevelPart>>, AllocError>
        requires components { AreComponents self.now.p.now self.now.comps.now }
        requires each { length self.now.found.now ≡ length self.now.comps.now.members }
        requires there { q.0 < length self.now.p.now.preds }
        ensures { IfOk result (λ lists. lists
            ≡ printed_at self.now.p.now self.now.comps.now self.now.found.now q.0) }
    {
        if self.comps.recursive(self.comps.of(q)) {
            lists_of(alloc, self.p, self.lists_at(q), q)
        } else {
            zero_lists(alloc, self.p.pred(q).arity)
        }
    }

    /// The parts of all predicates in the lists of their components.
    pub(crate) fn lists(
        &self,
        alloc: Global,
    ) -> Result<Sequence<Sequence<Sequence<LevelPart>>>, AllocError>
        requires components { AreComponents self.now.p.now self.now.comps.now }
        requires each { length self.now.found.now ≡ length self.now.comps.now.members }
        ensures { IfOk result (λ lists. lists
            ≡ printed_lists self.now.p.now self.now.comps.now self.now.found.now) }
    {
        let mut lists = Sequence::new(alloc);
        for q in 0..self.p.preds() {
            lists.push(self.printed_at(alloc, PredId(q))?)?;
        }
        Ok(lists)
    }

    /// The multipliers of a call in the body of a clause, for each list; none, where the call is to a lower component.
    /// The index in the drops moves over them.
    fn drops_at(
        &self,
        alloc: Global,
        clause: u32,
        place: u32,
        call: &Atom,
        at: &mut usize,
    ) -> Result<Sequence<Sequence<Multipliers>>, AllocError>
        requires components { AreComponents self.now.p.now self.now.comps.now }
        requires each { length self.now.found.now ≡ length self.now.comps.now.members }
        requires clause { clause < length self.now.p.now.clauses }
        requires place { place < 4294967295 }
        requires call { call.now.pred.0 < length self.now.p.now.preds }
        requires passed { ArePassed (lists_at self.now.comps.now self.now.found.now
            (head_of self.now.p.now clause)) at.old (clause + 1) (place + 1) }
        ensures drops { IfOk result (λ drops. drops
            ≡ drops_at self.now.p.now self.now.comps.now self.now.found.now clause place
            (Some call.now)) }
        ensures passed { OnOk result (ArePassed (lists_at self.now.comps.now self.now.found.now
            (head_of self.now.p.now clause)) at.new (clause + 1) (place + 2)) }
    {
        let _program = self.p.clauses();
        let head = self.p.clause(clause + 1).head.pred;
        if self.comps.of(head) != self.comps.of(call.pred) {
            return Ok(Sequence::new(alloc));
        }
        let lists = self.lists_at(head);
        let drops = places_of(alloc, lists, *at, clause + 1, place + 1)?;
        *at = after_call(lists, *at, clause + 1, place + 1);
        Ok(drops)
    }

    /// The multipliers of the calls in the body of a clause. The index in the drops moves over them.
    fn drops_in(
        &self,
        alloc: Global,
        clause: u32,
        at: &mut usize,
    ) -> Result<Sequence<Sequence<Sequence<Multipliers>>>, AllocError>
        requires components { AreComponents self.now.p.now self.now.comps.now }
        requires each { length self.now.found.now ≡ length self.now.comps.now.members }
        requires clause { clause < length self.now.p.now.clauses }
        requires passed { ArePassed (lists_at self.now.comps.now self.now.found.now
            (head_of self.now.p.now clause)) at.old (clause + 1) 1 }
        ensures drops { IfOk result (λ drops. drops
            ≡ drops_from self.now.p.now self.now.comps.now self.now.found.now clause 0
            (body_of self.now.p.now clause)) }
        ensures passed { OnOk result (ArePassed (lists_at self.now.comps.now self.now.found.now
            (head_of self.now.p.now clause)) at.new (clause + 2) 1) }
    {
        let _program = self.p.clauses();
        let body = self.p.clause(clause + 1).body.as_slice();
        let mut drops = Sequence::new(alloc);
        for (place, call) in body.iter().enumerate() {
            drops.push(self.drops_at(alloc, clause, place as u32, call, at)?)?;
        }
        Ok(drops)
    }

    /// The multipliers of the calls of all clauses. Drops are in the order of their calls, so each is looked for after
    /// the last ones of its component.
    pub(crate) fn drops(
        &self,
        alloc: Global,
    ) -> Result<Sequence<Sequence<Sequence<Sequence<Multipliers>>>>, AllocError>
        requires components { AreComponents self.now.p.now self.now.comps.now }
        requires each { length self.now.found.now ≡ length self.now.comps.now.members }
        ensures { IfOk result (λ drops. drops
            ≡ printed_drops self.now.p.now self.now.comps.now self.now.found.now) }
    {
        let mut places = Vec::new(alloc);
        places.resize(self.found.len(), 0)?;
        let mut drops = Sequence::new(alloc);
        for clause in 0..self.p.clauses() {
            let c = self.comps.of(self.p.clause(clause + 1).head.pred) as usize;
            let mut at = places[c];
            drops.push(self.drops_in(alloc, clause, &mut at)?)?;
            places[c] = at;
        }
        Ok(drops)
    }

    /// The stuck set of the component that a predicate leads.
    fn stuck_at(&self, alloc: Global, q: PredId) -> Result<Option<Refutation>, AllocError>
        requires components { AreComponents self.now.p.now self.now.comps.now }
        requires each { length self.now.found.now ≡ length self.now.comps.now.members }
        requires there { q.0 < length self.now.p.now.preds }
        ensures { IfOk result (λ stuck. stuck ≡ stuck_of self.now.found.now
            (led_by self.now.comps.now q.0)) }
    {
        match led_by(self.p, self.comps, q) {
            Some(c) => copied_refutation(alloc, &self.found[c as usize].refutation),
            None => Ok(None),
        }
    }

    /// The stuck sets of components, by the predicates that lead them.
    pub(crate) fn stuck(&self, alloc: Global) -> Result<Sequence<Option<Refutation>>, AllocError>
        requires components { AreComponents self.now.p.now self.now.comps.now }
        requires each { length self.now.found.now ≡ length self.now.comps.now.members }
        ensures { IfOk result (λ stuck. stuck
            ≡ printed_stuck self.now.p.now self.now.comps.now self.now.found.now) }
    {
        let mut stuck = Sequence::new(alloc);
        for q in 0..self.p.preds() {
            stuck.push(self.stuck_at(alloc, PredId(q))?)?;
        }
        Ok(stuck)
    }
}
