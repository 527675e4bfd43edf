//! The parts of a certificate that the mappings of components give.

ghost use Rattle.std.specs.Prelude.{◌≡◌, ◌<◌, ◌+◌, IfOk, IsTrue, OnOk, Some, length, map};
ghost use Rattle.std.specs.List.{AllByRecursion};
ghost use Rattle.call_components.specs.Partition.{AreComponents};
ghost use Rattle.cert_structure.specs.Shape.{arity_in, body_of, head_of};
ghost use Rattle.level_systems.specs.Mappings.{level_in};
ghost use Rattle.report.specs.Levels.{ArePassed, IsFallAt, IsPassed, by_or_none, fall_in, fall_list, falls_at, falls_from};
ghost use Rattle.report.specs.Levels.{level_list, levels_at, mappings_at, refutation_list, refutation_of};
ghost use Rattle.cert_assembly.specs.Parted.{part_or_zero, zero_part};
ghost use Rattle.cert_assembly.specs.Leading.{led_by};

use call_components::Components;
use cert_assembly::{copied_refutation, led_by, part_of, zero_part};
use cti_terms::{Atom, PredId, Program};
use level_dual::{Found, Mapping};
use linear_rows::{Multipliers, Numbers};
use number_tests::{LevelPart, Refutation};
use sequences::Sequence;
use std::alloc::{AllocError, Global};

/// The multipliers of a call in a mapping; none, where it has none. Clauses and calls count from 1.
fn fall_of(
    alloc: Global,
    mapping: &Mapping,
    clause: u32,
    call: u32,
) -> Result<Multipliers, AllocError>
    ensures { IfOk result (λ by. by ≡ by_or_none (fall_in mapping.now.falls clause call)) }
{
    for fall in mapping.falls.as_slice() {
        if fall.clause == clause && fall.call == call {
            return fall.by.copy(alloc);
        }
    }
    Ok(Multipliers {
        scale: 0,
        list: Numbers::new(alloc),
    })
}

/// The multipliers of a call in a mapping, first looked for at a place before which all falls are of earlier calls;
/// none, where the mapping has none.
fn fall_at(
    alloc: Global,
    mapping: &Mapping,
    at: usize,
    clause: u32,
    call: u32,
) -> Result<Multipliers, AllocError>
    requires { IsPassed mapping.now.falls at clause call }
    ensures { IfOk result (λ by. by ≡ by_or_none (fall_in mapping.now.falls clause call)) }
{
    match mapping.falls.as_slice().get(at) {
        Some(fall) if fall.clause == clause && fall.call == call => fall.by.copy(alloc),
        _ => fall_of(alloc, mapping, clause, call),
    }
}

/// Whether each mapping has the fall of a call at a place.
fn are_at(mappings: &[Mapping], at: usize, clause: u32, call: u32) -> bool
    ensures { IsTrue result → AllByRecursion (λ m. IsFallAt m.falls at clause call) mappings.now }
{
    for mapping in mappings {
        match mapping.falls.as_slice().get(at) {
            Some(fall) if fall.clause == clause && fall.call == call => {}
            _ => return false,
        }
    }
    true
}

/// The place after the falls of a call, where they stand at this one.
fn after_call(mappings: &[Mapping], at: usize, clause: u32, call: u32) -> usize
    requires { ArePassed mappings.now at clause call }
    ensures { ArePassed mappings.now result clause (call + 1) }
{
    if are_at(mappings, at, clause, call) {
        at.saturating_add(1)
    } else {
        at
    }
}

/// The parts of a predicate in mappings.
fn parts_of(
    alloc: Global,
    p: &Program,
    mappings: &[Mapping],
    q: PredId,
) -> Result<Sequence<LevelPart>, AllocError>
    requires { q.0 < length p.now.preds }
    ensures { IfOk result (λ parts. parts ≡ map
        (λ m. part_or_zero (arity_in p.now q.0) (level_in m.measures q.0)) mappings.now) }
{
    let mut parts = Sequence::new(alloc);
    for mapping in mappings {
        parts.push(part_of(alloc, p, mapping.measures.as_slice(), q)?)?;
    }
    Ok(parts)
}

/// The multipliers of a call in mappings, where all falls before a place are of earlier calls. Clauses and calls count
/// from 1.
fn falls_of(
    alloc: Global,
    mappings: &[Mapping],
    at: usize,
    clause: u32,
    call: u32,
) -> Result<Sequence<Multipliers>, AllocError>
    requires { ArePassed mappings.now at clause call }
    ensures { IfOk result (λ falls. falls ≡ map
        (λ m. by_or_none (fall_in m.falls clause call)) mappings.now) }
{
    let mut falls = Sequence::new(alloc);
    for mapping in mappings {
        falls.push(fall_at(alloc, mapping, at, clause, call)?)?;
    }
    Ok(falls)
}

/// The components of a program, with what is found of the mappings of each.
#[derive(Clone, Copy)]
pub(crate) struct Mapped<'a> {
    pub(crate) p: &'a Program,
    pub(crate) comps: &'a Components,
    pub(crate) found: &'a [Found],
}

impl Mapped<'_> {
    /// The mappings of a predicate's component.
    fn mappings_at(&self, q: PredId) -> &[Mapping]
        requires components { AreComponents self.now.p.now self.now.comps.now }
        requires each { length self.now.found.now ≡ length self.now.comps.now.members }
        requires there { q.0 < length self.now.p.now.preds }
        ensures { result.now ≡ mappings_at self.now.comps.now self.now.found.now q.0 }
    {
        self.found[self.comps.of(q) as usize].mappings.as_slice()
    }

    /// The parts of a predicate in the mappings of its component; one of zeros, where that is not recursive.
    fn levels_at(&self, alloc: Global, q: PredId) -> Result<Sequence<LevelPart>, AllocError>
        requires components { AreComponents self.now.p.now self.now.comps.now }
        requires each { length self.now.found.now ≡ length self.now.comps.now.members }
        requires there { q.0 < length self.now.p.now.preds }
        ensures { IfOk result (λ levels. levels
            ≡ levels_at self.now.p.now self.now.comps.now self.now.found.now q.0) }
    {
        if self.comps.recursive(self.comps.of(q)) {
            parts_of(alloc, self.p, self.mappings_at(q), q)
        } else {
            let mut levels = Sequence::new(alloc);
            levels.push(zero_part(alloc, self.p.pred(q).arity)?)?;
            Ok(levels)
        }
    }

    /// The parts of all predicates in the mappings of their components.
    pub(crate) fn levels(&self, alloc: Global) -> Result<Sequence<Sequence<LevelPart>>, AllocError>
        requires components { AreComponents self.now.p.now self.now.comps.now }
        requires each { length self.now.found.now ≡ length self.now.comps.now.members }
        ensures { IfOk result (λ levels. levels
            ≡ level_list self.now.p.now self.now.comps.now self.now.found.now) }
    {
        let mut levels = Sequence::new(alloc);
        for q in 0..self.p.preds() {
            levels.push(self.levels_at(alloc, PredId(q))?)?;
        }
        Ok(levels)
    }

    /// The multipliers of a call in the body of a clause, for each mapping; none, where the call is to a lower
    /// component. The place in the falls moves over them.
    fn falls_at(
        &self,
        alloc: Global,
        clause: u32,
        place: u32,
        call: &Atom,
        at: &mut usize,
    ) -> Result<Sequence<Multipliers>, AllocError>
        requires components { AreComponents self.now.p.now self.now.comps.now }
        requires each { length self.now.found.now ≡ length self.now.comps.now.members }
        requires clause { clause < length self.now.p.now.clauses }
        requires place { place < 4294967295 }
        requires call { call.now.pred.0 < length self.now.p.now.preds }
        requires passed { ArePassed (mappings_at self.now.comps.now self.now.found.now
            (head_of self.now.p.now clause)) at.old (clause + 1) (place + 1) }
        ensures falls { IfOk result (λ falls. falls
            ≡ falls_at self.now.p.now self.now.comps.now self.now.found.now clause place
            (Some call.now)) }
        ensures passed { OnOk result (ArePassed (mappings_at self.now.comps.now self.now.found.now
            (head_of self.now.p.now clause)) at.new (clause + 1) (place + 2)) }
    {
        let _program = self.p.clauses();
        let head = self.p.clause(clause + 1).head.pred;
        if self.comps.of(head) != self.comps.of(call.pred) {
            return Ok(Sequence::new(alloc));
        }
        let mappings = self.mappings_at(head);
        let falls = falls_of(alloc, mappings, *at, clause + 1, place + 1)?;
        *at = after_call(mappings, *at, clause + 1, place + 1);
        Ok(falls)
    }

    /// The multipliers of the calls in the body of a clause. The place in the falls moves over them.
    fn falls_in(
        &self,
        alloc: Global,
        clause: u32,
        at: &mut usize,
    ) -> Result<Sequence<Sequence<Multipliers>>, AllocError>
        requires components { AreComponents self.now.p.now self.now.comps.now }
        requires each { length self.now.found.now ≡ length self.now.comps.now.members }
        requires clause { clause < length self.now.p.now.clauses }
        requires passed { ArePassed (mappings_at self.now.comps.now self.now.found.now
            (head_of self.now.p.now clause)) at.old (clause + 1) 1 }
        ensures falls { IfOk result (λ falls. falls
            ≡ falls_from self.now.p.now self.now.comps.now self.now.found.now clause 0
            (body_of self.now.p.now clause)) }
        ensures passed { OnOk result (ArePassed (mappings_at self.now.comps.now self.now.found.now
            (head_of self.now.p.now clause)) at.new (clause + 2) 1) }
    {
        let _program = self.p.clauses();
        let body = self.p.clause(clause + 1).body.as_slice();
        let mut falls = Sequence::new(alloc);
        for (place, call) in body.iter().enumerate() {
            falls.push(self.falls_at(alloc, clause, place as u32, call, at)?)?;
        }
        Ok(falls)
    }

    /// The multipliers of the calls of all clauses. Falls are in the order of their calls, so each is looked for after
    /// the last ones of its component.
    pub(crate) fn falls(
        &self,
        alloc: Global,
    ) -> Result<Sequence<Sequence<Sequence<Multipliers>>>, AllocError>
        requires components { AreComponents self.now.p.now self.now.comps.now }
        requires each { length self.now.found.now ≡ length self.now.comps.now.members }
        ensures { IfOk result (λ falls. falls
            ≡ fall_list self.now.p.now self.now.comps.now self.now.found.now) }
    {
        let mut places = Vec::new(alloc);
        places.resize(self.found.len(), 0)?;
        let mut falls = Sequence::new(alloc);
        for clause in 0..self.p.clauses() {
            let c = self.comps.of(self.p.clause(clause + 1).head.pred) as usize;
            let mut at = places[c];
            falls.push(self.falls_in(alloc, clause, &mut at)?)?;
            places[c] = at;
        }
        Ok(falls)
    }

    /// The refutation of the component that a predicate leads.
    fn refutation_at(&self, alloc: Global, q: PredId) -> Result<Option<Refutation>, AllocError>
        requires components { AreComponents self.now.p.now self.now.comps.now }
        requires each { length self.now.found.now ≡ length self.now.comps.now.members }
        requires there { q.0 < length self.now.p.now.preds }
        ensures { IfOk result (λ refutation. refutation ≡ refutation_of self.now.found.now
            (led_by self.now.comps.now q.0)) }
    {
        match led_by(self.p, self.comps, q) {
            Some(c) => copied_refutation(alloc, &self.found[c as usize].refutation),
            None => Ok(None),
        }
    }

    /// The refutations of components, by the predicates that lead them.
    pub(crate) fn refutations(
        &self,
        alloc: Global,
    ) -> Result<Sequence<Option<Refutation>>, AllocError>
        requires components { AreComponents self.now.p.now self.now.comps.now }
        requires each { length self.now.found.now ≡ length self.now.comps.now.members }
        ensures { IfOk result (λ refutations. refutations
            ≡ refutation_list self.now.p.now self.now.comps.now self.now.found.now) }
    {
        let mut refutations = Sequence::new(alloc);
        for q in 0..self.p.preds() {
            refutations.push(self.refutation_at(alloc, PredId(q))?)?;
        }
        Ok(refutations)
    }
}
