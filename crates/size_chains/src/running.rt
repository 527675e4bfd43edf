//! Steps, passes and components.

ghost use Rattle.std.specs.Prelude.{◌≡◌, ◌≤◌, ◌<◌, ◌-◌, true, IfOk, OnOk, length, slice_get, Some};
ghost use Rattle.component_clauses.specs.Numbered.{HasItsClauses, with_clauses};
ghost use Rattle.cti_terms.specs.declared.clauses.Clause.{Clause};
ghost use Rattle.size_chains.specs.Noting.{HasRowsOf, IsNoted};
ghost use Rattle.size_chains.specs.Ready.{IsStateFor};
ghost use Rattle.size_chains.specs.Repeating.{IsMarked, WereLegal};
ghost use Rattle.size_chains.specs.Running.{IsPassed, IsRun, IsTaken};
ghost use Rattle.size_chains.specs.States.{own_from};
ghost use Rattle.termination_model.specs.sizes.Sizes.{rows_of};
ghost use Rattle.size_chains.specs.Systems.{AreSizes};

use crate::clause_systems::ClauseSystems;
use crate::filled::Filled;
use crate::noting::{Noted, note_step};
use crate::repeating::note_again;
use crate::state::State;
use crate::value::Value;
use component_clauses::ComponentClauses;
use cti_terms::Program;
use polyhedra::Domain;
use std::alloc::{AllocError, Global};

/// What a step on clause `k` does to the value of its head's predicate. Where the rows that it reads are those that the
/// last one read, it takes that one's image, if the head's rows stay.
fn note<D: Domain, S: ClauseSystems>(
    alloc: Global,
    p: &Program,
    systems: &S,
    k: u32,
    pass: u32,
    state: &State<D>,
    value: &Value<D>,
) -> Result<Noted<D>, AllocError>
    requires same { S.listing systems.now ≡ p.now }
    requires first { 1 ≤ k }
    requires last { k ≤ length p.now.clauses }
    requires sizes { AreSizes (S.systems systems.now) p.now.preds state.now.sizes.rows }
    requires legal { WereLegal D.speaks (S.systems systems.now) p.now state.now }
    requires old { (c : Clause) → slice_get p.now.clauses (k - 1) ≡ Some c
        → HasRowsOf (length ((S.systems systems.now).heads c)) (rows_of state.now.sizes.rows) c
        value.now.filled (D.width value.now.of) (D.listed value.now.of) }
    ensures { IfOk result (λ noted. (c : Clause) → slice_get p.now.clauses (k - 1) ≡ Some c
        → IsNoted D.width D.listed D.speaks (S.systems systems.now) pass
        (rows_of state.now.sizes.rows) c k value.now.filled noted) }
{
    if let Filled::Inhabited = value.filled {
        if let Some(earlier) = state.last_step(k, p.clause(k).body.as_slice()) {
            if let Some(noted) = note_again(alloc, p, systems, &state.sizes, &value.of, earlier)? {
                return Ok(noted);
            }
        }
    }
    note_step(alloc, p, systems, &state.sizes, value, k, pass)
}

impl<D: Domain> State<D> {
    /// A step on clause `k`. It says whether rows changed.
    fn run_step<S: ClauseSystems>(
        &mut self,
        alloc: Global,
        systems: &S,
        own: &ComponentClauses<'_>,
        k: u32,
        pass: u32,
    ) -> Result<bool, AllocError>
        requires same { S.listing systems.now ≡ own.now.program.now }
        requires first { 1 ≤ k }
        requires last { k ≤ length own.now.program.now.clauses }
        requires head { (x : Clause) → slice_get own.now.program.now.clauses (k - 1) ≡ Some x
            → own_from own.now.comps.now own.now.number x.head.pred.0 ≡ true }
        requires state { IsStateFor D.width D.listed (S.systems systems.now) own.now self.old }
        requires legal { WereLegal D.speaks (S.systems systems.now) own.now.program.now self.old }
        ensures state { OnOk result (IsStateFor D.width D.listed (S.systems systems.now) own.now self.new) }
        ensures taken { IfOk result (λ changed. (x : Clause)
            → slice_get own.now.program.now.clauses (k - 1) ≡ Some x
            → IsTaken D.width D.listed D.speaks (S.systems systems.now) pass
            (k, x) self.old self.new changed
            × IsMarked x.head.pred.0 self.old self.new changed) }
    {
        let _program = systems.program();
        let pred = own.program.clause(k).head.pred;
        let value = &self.values[pred.0 as usize];
        let noted = note(alloc, own.program, systems, k, pass, self, value)?;
        self.accept(alloc, k, pred, noted)
    }

    /// A step on each of the clauses, in order. It says whether rows changed.
    fn run_pass<S: ClauseSystems>(
        &mut self,
        alloc: Global,
        systems: &S,
        own: &ComponentClauses<'_>,
        number: u32,
    ) -> Result<bool, AllocError>
        requires same { S.listing systems.now ≡ own.now.program.now }
        requires component { HasItsClauses own.now }
        requires state { IsStateFor D.width D.listed (S.systems systems.now) own.now self.old }
        requires legal { WereLegal D.speaks (S.systems systems.now) own.now.program.now self.old }
        ensures state { OnOk result (IsStateFor D.width D.listed (S.systems systems.now) own.now self.new) }
        ensures legal { OnOk result
            (WereLegal D.speaks (S.systems systems.now) own.now.program.now self.new) }
        ensures passed { IfOk result
            (IsPassed D.width D.listed D.speaks (S.systems systems.now) number
            (with_clauses own.now.program.now.clauses own.now.clauses.now) self.old self.new) }
    {
        let _program = own.program.clauses();
        let mut changed = false;
        for k in own.clauses {
            let more = self.run_step(alloc, systems, own, *k, number)?;
            changed |= more;
        }
        Ok(changed)
    }

    /// Passes over the clauses until one changes nothing.
    pub(crate) fn run_passes<S: ClauseSystems>(
        &mut self,
        alloc: Global,
        systems: &S,
        own: &ComponentClauses<'_>,
    ) -> Result<(), AllocError>
        requires same { S.listing systems.now ≡ own.now.program.now }
        requires component { HasItsClauses own.now }
        requires state { IsStateFor D.width D.listed (S.systems systems.now) own.now self.old }
        requires legal { WereLegal D.speaks (S.systems systems.now) own.now.program.now self.old }
        ensures state { OnOk result (IsStateFor D.width D.listed (S.systems systems.now) own.now self.new) }
        ensures legal { OnOk result
            (WereLegal D.speaks (S.systems systems.now) own.now.program.now self.new) }
        ensures run { OnOk result
            (IsRun D.width D.listed D.speaks (S.systems systems.now)
            (with_clauses own.now.program.now.clauses own.now.clauses.now) self.old self.new) }
    {
        let mut number = 1;
        loop {
            let changed = self.run_pass(alloc, systems, own, number)?;
            if !changed {
                return Ok(());
            }
            if number <= 3 {
                number += 1;
            }
        }
    }
}
