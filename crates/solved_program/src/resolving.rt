//! The size rows of a program after an edit.

ghost use Rattle.std.specs.Prelude.{◌≡◌, ◌≤◌, ◌<◌, ◌+◌, ℕ, List, IfOk, IfSome, IsNone, OnOk, Some, All, length, map};
ghost use Rattle.std.specs.Prelude.{slice_get};
ghost use Rattle.call_components.specs.Numbers.{number_of};
ghost use Rattle.termination_model.specs.sizes.Sizes.{AreSizes, rows_of};
ghost use Rattle.numeric_model.specs.Ready.{IsReady, chain_of};
ghost use Rattle.solved_program.specs.Kept.{IsEdit};
ghost use Rattle.solved_program.specs.Marks.{AreMarked, StandsMarked};
ghost use Rattle.solved_program.specs.Resolving.{AreSources, IsCarriedFrom, IsDone, IsPartTaken, IsProgress};
ghost use Rattle.solved_program.specs.Resolving.{IsSolvedAt};
ghost use Rattle.solved_program.specs.Solved.{AreSolved};
ghost use Rattle.solved_program.specs.Standing.{KeepValues};

use crate::carrying::carried;
use crate::edit::Edit;
use crate::edit_clauses::EditClauses;
use crate::marking::{mark_all, mark_same_rows};
use crate::progress::Progress;
use crate::renumbering::renumbered;
use crate::solved_sizes::SolvedSizes;
use crate::taking::{take_proofs, take_rows};
use component_clauses::{ComponentClauses, own_clauses};
use cti_terms::PredId;
use numeric_model::{State, Step};
use polyhedra::Domain;
use sequences::Sequence;
use std::alloc::{AllocError, Global};
use term_size::Norm;

/// What the size rows after an edit are made from.
#[derive(Clone, Copy)]
pub struct Sources<'a> {
    pub edit: &'a Edit<'a>,
    pub old: &'a SolvedSizes,
    /// For each component before the edit the numbers of its clauses.
    pub own_before: &'a [Sequence<u32>],
    /// For each component after the edit the numbers of its clauses.
    pub own: &'a [Sequence<u32>],
}

/// Takes the rows of these members, the proofs of these clauses, and the steps.
fn take_part<D: Domain>(
    alloc: Global,
    members: &[PredId],
    own: &[u32],
    state: &State<D>,
    steps: Sequence<Step>,
    solved: &mut SolvedSizes,
) -> Result<(), AllocError>
    requires members { All (λ q. q.0 < length state.now.sizes.rows) members.now }
    requires own { All (λ k. (1 ≤ k) × (k ≤ length state.now.proofs.items)) own.now }
    requires rows { length state.now.sizes.rows ≡ length solved.old.sizes.rows }
    requires proofs { length state.now.proofs.items ≡ length solved.old.sizes.proofs }
    ensures { OnOk result (IsPartTaken (map number_of members.now) own.now
        (chain_of steps state.now) solved.old solved.new) }
{
    let sizes = &mut solved.sizes;
    take_rows(alloc, members, &state.sizes.rows, &mut sizes.rows)?;
    take_proofs(alloc, own, state.proofs.as_slice(), &mut sizes.proofs)?;
    solved.steps.push(steps)
}

impl Sources<'_> {
    /// The old component that the component `c` stands for, if it stands, where the predicates with a mark have
    /// what they had.
    pub fn standing(&self, c: u32, stayed: &[bool]) -> Option<u32>
        requires sources { AreSources self.now }
        requires each { length stayed.now ≡ length self.now.edit.now.after.now.preds }
        requires inner { c < length self.now.edit.now.components.now.members }
        ensures below { IfSome result
            (λ b. b < length self.now.edit.now.components_before.now.members) }
        ensures stands { IfSome result (λ b. StandsMarked self.now.edit.now stayed.now b c) }
        ensures none { IsNone result
            → (b : ℕ) → StandsMarked self.now.edit.now stayed.now b c → ⊥ }
    {
        let clauses = EditClauses {
            edit: self.edit,
            own_before: self.own_before,
            own: self.own,
        };
        clauses.standing(c, stayed)
    }

    /// Takes over the part of an old component, whose rows and proofs are there already.
    fn carry<D: Domain>(
        &self,
        alloc: Global,
        before: u32,
        c: u32,
        progress: &mut Progress<D>,
    ) -> Result<(), AllocError>
        requires sources { AreSources self.now }
        requires before { before < length self.now.old.now.steps }
        requires inner { c < length self.now.edit.now.components.now.members }
        requires some { (own : List ℕ) → slice_get self.now.own.now c ≡ Some own → 0 < length own }
        requires rows { AreSizes self.now.edit.now.after.now.preds progress.old.solved.sizes.rows }
        requires ready { IsReady D.width D.listed self.now.edit.now.after.now
            self.now.edit.now.components.now c progress.old.state }
        ensures carried { OnOk result
            (IsCarriedFrom self.now before c progress.old.solved progress.new.solved) }
        ensures done { OnOk result (IsDone D.width D.listed self.now c
            progress.old.solved.sizes.rows progress.old.state progress.new.state) }
    {
        let steps = self.old.steps.get(before as usize);
        let own = self.own[c as usize].as_slice();
        let carried = renumbered(alloc, steps.as_slice(), own)?;
        let members = self.edit.components.members(c);
        let rows = &mut progress.state.sizes.rows;
        take_rows(alloc, members, &progress.solved.sizes.rows, rows)?;
        progress.solved.steps.push(carried)?;
        Ok(())
    }

    /// Solves a component above the rows so far, and marks the members whose rows stayed.
    fn solve_anew<D: Domain, N: Norm>(
        &self,
        alloc: Global,
        norm: &N,
        c: u32,
        progress: &mut Progress<D>,
        stayed: &mut [bool],
    ) -> Result<(), AllocError>
        requires sources { AreSources self.now }
        requires progress { IsProgress D.width D.listed self.now D.speaks
            (N.expression norm.now) c progress.old stayed.old }
        requires inner { c < length self.now.edit.now.components.now.members }
        ensures solved { OnOk result (IsSolvedAt D.speaks
            (N.expression norm.now) self.now c progress.old.solved progress.new.solved) }
        ensures marks { OnOk result (AreMarked self.now.edit.now.components.now c
            (λ r. rows_of progress.new.solved.sizes.rows r
            ≡ rows_of progress.old.solved.sizes.rows r) stayed.old stayed.new) }
        ensures done { OnOk result (IsDone D.width D.listed self.now c
            progress.new.solved.sizes.rows progress.old.state progress.new.state) }
    {
        let _program = self.edit.after.clauses();
        let own = ComponentClauses {
            program: self.edit.after,
            comps: self.edit.components,
            number: c,
            clauses: self.own[c as usize].as_slice(),
        };
        let steps = progress.state.solve(alloc, norm, &own)?;
        let rows = &progress.solved.sizes.rows;
        mark_same_rows(self.edit, c, rows, &progress.state.sizes.rows, stayed);
        let members = self.edit.components.members(c);
        take_part(
            alloc,
            members,
            own.clauses,
            &progress.state,
            steps,
            &mut progress.solved,
        )?;
        Ok(())
    }

    /// Takes over one more component, or solves it. Members whose rows stay are marked.
    fn resolve<D: Domain, N: Norm>(
        &self,
        alloc: Global,
        norm: &N,
        c: u32,
        progress: &mut Progress<D>,
        stayed: &mut [bool],
    ) -> Result<(), AllocError>
        requires sources { AreSources self.now }
        requires old { AreSolved D.speaks (N.expression norm.now) self.now.edit.now.before.now
            self.now.edit.now.components_before.now self.now.old.now }
        requires inner { c < length self.now.edit.now.components.now.members }
        requires progress { IsProgress D.width D.listed self.now D.speaks
            (N.expression norm.now) c progress.old stayed.old }
        ensures { OnOk result (IsProgress D.width D.listed self.now D.speaks
            (N.expression norm.now) (c + 1) progress.new stayed.new) }
    {
        let _before = self.edit.before.clauses();
        let _after = self.edit.after.clauses();
        match self.standing(c, stayed) {
            Some(before) => {
                self.carry(alloc, before, c, progress)?;
                mark_all(self.edit, c, stayed);
                Ok(())
            }
            None => {
                self.solve_anew::<D, N>(alloc, norm, c, progress, stayed)?;
                Ok(())
            }
        }
    }

    /// Solves or keeps each component, callees first.
    fn resolve_each<D: Domain, N: Norm>(
        &self,
        alloc: Global,
        norm: &N,
        progress: &mut Progress<D>,
        stayed: &mut [bool],
    ) -> Result<(), AllocError>
        requires sources { AreSources self.now }
        requires old { AreSolved D.speaks (N.expression norm.now) self.now.edit.now.before.now
            self.now.edit.now.components_before.now self.now.old.now }
        requires begun { IsProgress D.width D.listed self.now D.speaks
            (N.expression norm.now) 0 progress.old stayed.old }
        ensures { OnOk result (IsProgress D.width D.listed self.now D.speaks (N.expression norm.now)
            (length self.now.edit.now.components.now.members) progress.new stayed.new) }
    {
        for c in 0..self.edit.components.count() {
            self.resolve::<D, N>(alloc, norm, c, progress, stayed)?;
        }
        Ok(())
    }

    /// The rows after an edit, from what was there before.
    fn resolve_all<D: Domain, N: Norm>(
        &self,
        alloc: Global,
        norm: &N,
    ) -> Result<SolvedSizes, AllocError>
        requires sources { AreSources self.now }
        requires old { AreSolved D.speaks (N.expression norm.now) self.now.edit.now.before.now
            self.now.edit.now.components_before.now self.now.old.now }
        ensures solved { IfOk result
            (AreSolved D.speaks (N.expression norm.now) self.now.edit.now.after.now
            self.now.edit.now.components.now) }
        ensures kept { IfOk result
            (λ now. KeepValues self.now.edit.now (rows_of self.now.old.now.sizes.rows)
            (rows_of now.sizes.rows)) }
    {
        let state = State::<D>::start(alloc, self.edit.after)?;
        let solved = carried(alloc, self.edit, self.old)?;
        let mut progress = Progress { state, solved };
        let mut stayed = vec![in alloc; false; self.edit.after.preds() as usize]?;
        self.resolve_each::<D, N>(alloc, norm, &mut progress, &mut stayed)?;
        Ok(progress.into_solved())
    }
}

/// The size rows of a program after an edit, from those before it.
///
/// A component keeps its steps, rows and proofs where its clauses are those of an old component, all of them and in
/// their order, and the predicates that they call have the rows that they had. Each other component is solved.
pub fn resolve_sizes<D: Domain, N: Norm>(
    alloc: Global,
    norm: &N,
    edit: &Edit<'_>,
    old: &SolvedSizes,
) -> Result<SolvedSizes, AllocError>
    requires edit { IsEdit edit.now }
    requires old { AreSolved D.speaks
        (N.expression norm.now) edit.now.before.now edit.now.components_before.now
        old.now }

    // Each component is solved, also where it was taken over. One that stands for an old one has the rows that it had.
    ensures solved { IfOk result (AreSolved D.speaks (N.expression norm.now) edit.now.after.now
        edit.now.components.now) }
    ensures kept { IfOk result
        (λ now. KeepValues edit.now (rows_of old.now.sizes.rows) (rows_of now.sizes.rows)) }
{
    let own_before = own_clauses(alloc, edit.before, edit.components_before)?;
    let own = own_clauses(alloc, edit.after, edit.components)?;
    let sources = Sources {
        edit,
        old,
        own_before: own_before.as_slice(),
        own: own.as_slice(),
    };
    sources.resolve_all::<D, N>(alloc, norm)
}
