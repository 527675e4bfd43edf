//! The notes of components: supports that were given up, and components with many argument positions.

ghost use Rattle.std.specs.Prelude.{◌≡◌, ◌<◌, ◌+◌, ◌*◌, ◌^◌, ◌∷◌, ◌++◌, [], Some, IfOk, OnOk, nat_eq, length, map, if◌then◌else◌};
ghost use Rattle.std.specs.List.{AllByRecursion, list_any};
ghost use Rattle.call_components.specs.Numbers.{number_of};
ghost use Rattle.call_components.specs.Partition.{AreComponents};
ghost use Rattle.certificate.specs.declared.fact.Fact.TheVariants as fact;
ghost use Rattle.cert_structure.specs.Order.{pred_text};
ghost use Rattle.report.specs.Levels.{given_up};
ghost use Rattle.report.specs.SupportNotes.{arguments_in, arguments_by_member, blown_at, blown_note, blown_notes, large_at, large_notes, support_notes};
ghost use Rattle.cert_assembly.specs.Leading.{led_by};
ghost use Rattle.termination_model.specs.mappings.Ready.{arity_in, positions_by};

use call_components::Components;
use cert_assembly::{led_by, pred_text};
use certificate::Fact;
use cti_terms::{Names, PredId, Program};
use level_dual::Found;
use sequences::Sequence;
use std::alloc::{AllocError, Global};

/// The most argument positions of a component of which all supports are searched.
const MOST_POSITIONS: u64 = 12;

/// Whether a position is in a set.
fn has_position(set: &[u32], position: u64) -> bool
    ensures { result ≡ list_any (λ x. nat_eq position x) set.now }
{
    for x in set {
        if position == u64::from(*x) {
            return true;
        }
    }
    false
}

/// Puts a number last, where it is wanted.
fn push_if(wanted: bool, number: u32, numbers: &mut Sequence<u32>) -> Result<(), AllocError>
    ensures { OnOk result (numbers.new ≡ numbers.old ++ (if wanted then number ∷ [] else [])) }
{
    if wanted { numbers.push(number) } else { Ok(()) }
}

/// The arguments whose positions are in a set, where the first one has this position.
fn arguments_in(
    alloc: Global,
    set: &[u32],
    first: u64,
    arity: u32,
) -> Result<Sequence<u32>, AllocError>
    requires { first + arity < 2 ^ 64 }
    ensures { IfOk result (λ arguments. arguments ≡ arguments_in set.now first 1 arity) }
{
    let mut arguments = Sequence::new(alloc);
    for a in 0..arity {
        let wanted = has_position(set, first + u64::from(a));
        push_if(wanted, a + 1, &mut arguments)?;
    }
    Ok(arguments)
}

/// For each member its arguments whose positions are in a set.
fn arguments_by_member(
    alloc: Global,
    p: &Program,
    members: &[PredId],
    set: &[u32],
) -> Result<Sequence<Sequence<u32>>, AllocError>
    requires members { AllByRecursion (λ q. q < length p.now.preds) (map number_of members.now) }
    requires few { length members.now < 2 ^ 32 }
    ensures { IfOk result (λ support. support ≡ arguments_by_member p.now set.now 1
        (map number_of members.now)) }
{
    let mut support = Sequence::new(alloc);
    let mut first = 1;
    for member in members {
        let arity = p.pred(*member).arity;
        support.push(arguments_in(alloc, set, first, arity)?)?;
        first += u64::from(arity);
    }
    Ok(support)
}

/// How many argument positions predicates have.
fn positions_count(p: &Program, members: &[PredId]) -> u64
    requires members { AllByRecursion (λ q. q < length p.now.preds) (map number_of members.now) }
    requires few { length members.now < 2 ^ 32 }
    ensures { result ≡ length (positions_by (arity_in p.now) (map number_of members.now)) }
{
    let mut count = 0;
    for member in members {
        count += u64::from(p.pred(*member).arity);
    }
    count
}

/// A program by its names and its components.
#[derive(Clone, Copy)]
pub(crate) struct Described<'a> {
    pub(crate) p: &'a Program,
    pub(crate) names: &'a Names,
    pub(crate) comps: &'a Components,
}

impl Described<'_> {
    /// Puts the notes of supports that were given up after others, where the predicate is the first member.
    fn note_given_up(
        &self,
        alloc: Global,
        q: PredId,
        c: u32,
        sets: &[Sequence<u32>],
        out: &mut Sequence<Fact>,
    ) -> Result<(), AllocError>
        requires components { AreComponents self.now.p.now self.now.comps.now }
        requires within { c < length self.now.comps.now.members }
        ensures { OnOk result (out.new
            ≡ out.old ++ map (blown_note self.now.p.now self.now.names.now self.now.comps.now c q.0) sets.now) }
    {
        for set in sets {
            out.push(self.blown_note(alloc, q, c, set.as_slice())?)?;
        }
        Ok(())
    }

    /// The note of a support that was given up.
    fn blown_note(&self, alloc: Global, q: PredId, c: u32, set: &[u32]) -> Result<Fact, AllocError>
        requires components { AreComponents self.now.p.now self.now.comps.now }
        requires within { c < length self.now.comps.now.members }
        ensures { IfOk result (λ note. note
            ≡ blown_note self.now.p.now self.now.names.now self.now.comps.now c q.0 set.now) }
    {
        let _program = self.p.clauses();
        Ok(Fact::Blown {
            pred: pred_text(alloc, self.p, self.names, q)?,
            support: arguments_by_member(alloc, self.p, self.comps.members(c), set)?,
        })
    }

    /// Puts the notes of all supports that were given up after others. What is found goes by component.
    fn note_blown(
        &self,
        alloc: Global,
        found: &[Found],
        out: &mut Sequence<Fact>,
    ) -> Result<(), AllocError>
        requires components { AreComponents self.now.p.now self.now.comps.now }
        requires each { length found.now ≡ length self.now.comps.now.members }
        ensures { OnOk result (out.new
            ≡ out.old ++ blown_notes self.now.p.now self.now.names.now self.now.comps.now
            (given_up found.now)) }
    {
        for q in 0..self.p.preds() {
            self.note_blown_at(alloc, PredId(q), found, out)?;
        }
        Ok(())
    }

    /// Puts the notes of the supports of a component that were given up after others, where it is led by the predicate.
    fn note_blown_at(
        &self,
        alloc: Global,
        q: PredId,
        found: &[Found],
        out: &mut Sequence<Fact>,
    ) -> Result<(), AllocError>
        requires components { AreComponents self.now.p.now self.now.comps.now }
        requires there { q.0 < length self.now.p.now.preds }
        requires each { length found.now ≡ length self.now.comps.now.members }
        ensures { OnOk result (out.new
            ≡ out.old ++ blown_at self.now.p.now self.now.names.now self.now.comps.now
            (given_up found.now) q.0 (led_by self.now.comps.now q.0)) }
    {
        match led_by(self.p, self.comps, q) {
            Some(c) => {
                let sets = &found[c as usize].blown;
                self.note_given_up(alloc, q, c, sets.as_slice(), out)
            }
            None => Ok(()),
        }
    }

    /// Puts the note of a component after others, if it has many argument positions.
    fn note_if_large(
        &self,
        alloc: Global,
        q: PredId,
        c: u32,
        out: &mut Sequence<Fact>,
    ) -> Result<(), AllocError>
        requires components { AreComponents self.now.p.now self.now.comps.now }
        requires within { c < length self.now.comps.now.members }
        ensures { OnOk result (out.new
            ≡ out.old ++ large_at self.now.p.now self.now.names.now self.now.comps.now q.0
            (Some c)) }
    {
        let _program = self.p.clauses();
        let positions = positions_count(self.p, self.comps.members(c));
        if positions <= MOST_POSITIONS {
            return Ok(());
        }
        out.push(Fact::Large {
            pred: pred_text(alloc, self.p, self.names, q)?,
            positions,
        })
    }

    /// Puts the notes of all components with many argument positions after others.
    fn note_large(&self, alloc: Global, out: &mut Sequence<Fact>) -> Result<(), AllocError>
        requires components { AreComponents self.now.p.now self.now.comps.now }
        ensures { OnOk result (out.new
            ≡ out.old ++ large_notes self.now.p.now self.now.names.now self.now.comps.now) }
    {
        for q in 0..self.p.preds() {
            self.note_large_at(alloc, PredId(q), out)?;
        }
        Ok(())
    }

    /// Puts the note of a component with many argument positions after others, where it is led by the predicate.
    fn note_large_at(
        &self,
        alloc: Global,
        q: PredId,
        out: &mut Sequence<Fact>,
    ) -> Result<(), AllocError>
        requires components { AreComponents self.now.p.now self.now.comps.now }
        requires there { q.0 < length self.now.p.now.preds }
        ensures { OnOk result (out.new
            ≡ out.old ++ large_at self.now.p.now self.now.names.now self.now.comps.now q.0
            (led_by self.now.comps.now q.0)) }
    {
        match led_by(self.p, self.comps, q) {
            Some(c) => self.note_if_large(alloc, q, c, out),
            None => Ok(()),
        }
    }

    /// Puts the notes of all components after others. What is found goes by component.
    pub(crate) fn note_supports(
        &self,
        alloc: Global,
        found: &[Found],
        out: &mut Sequence<Fact>,
    ) -> Result<(), AllocError>
        requires components { AreComponents self.now.p.now self.now.comps.now }
        requires each { length found.now ≡ length self.now.comps.now.members }
        ensures { OnOk result (out.new
            ≡ out.old ++ support_notes self.now.p.now self.now.names.now self.now.comps.now
            (given_up found.now)) }
    {
        self.note_blown(alloc, found, out)?;
        self.note_large(alloc, out)
    }
}
