//! The mappings of a program after an edit.

ghost use Rattle.std.specs.Prelude.{◌≡◌, ◌<◌, ℕ, IfOk, IfSome, IsNone, Some, length, slice_get, true};
ghost use Rattle.termination_model.specs.sizes.Sizes.{AreSizes, rows_of};
ghost use Rattle.level_systems.specs.Found.{IsFound};
ghost use Rattle.solved_program.specs.Kept.{IsEdit};
ghost use Rattle.solved_program.specs.Resolving.{AreSources, Stands};
ghost use Rattle.solved_program.specs.Solved.{AreSolved};
ghost use Rattle.solved_program.specs.Standing.{KeepValues};
ghost use Rattle.carried_mappings.specs.FoundMappings.{AreFound, AreKeptFound, AreMappingSources, FoundBefore};
ghost use Rattle.carried_mappings.specs.FoundMappings.{IsCarriedAt, IsFoundAt, IsKept, KeepFound, ValuesAreKept};

use crate::standing::Standing;
use component_clauses::{ComponentClauses, own_clauses};
use level_dual::component_mappings;
use level_systems::Found;
use polyhedra::Domain;
use sequences::Sequence;
use solved_program::{Edit, SolvedSizes, Sources, stayed_rows};
use std::alloc::{AllocError, Global};
use term_size::Norm;
use termination_model::Sizes;

/// What the mappings after an edit are made from.
#[derive(Clone, Copy)]
pub(crate) struct MappingSources<'a> {
    pub(crate) sources: Sources<'a>,
    /// What was found of each component before the edit.
    pub(crate) found: &'a [Found],
    /// The size rows after the edit.
    pub(crate) sizes: &'a Sizes,
    /// For each predicate after it whether it has the size rows that it had.
    pub(crate) stayed: &'a [bool],
}

impl MappingSources<'_> {
    /// The old component that the component `c` stands for, if it stands.
    fn standing(&self, c: u32) -> Option<u32>
        requires sources { AreMappingSources self.now }
        requires inner { c < length self.now.sources.edit.now.components.now.members }
        ensures below { IfSome result
            (λ b. b < length self.now.sources.edit.now.components_before.now.members) }
        ensures stands { IfSome result
            (λ b. Stands self.now.sources self.now.sizes.now.rows b c) }
        ensures none { IsNone result
            → (b : ℕ) → Stands self.now.sources self.now.sizes.now.rows b c → ⊥ }
    {
        // What every program keeps.
        let _old = self.sources.edit.before.clauses();
        let _new = self.sources.edit.after.clauses();
        self.sources.standing(c, self.stayed)
    }

    /// What was found of an old component, for the component `c` that stands for it.
    fn carried(&self, alloc: Global, before: u32, c: u32) -> Result<Found, AllocError>
        requires sources { AreMappingSources self.now }
        requires before { before < length self.now.sources.edit.now.components_before.now.members }
        requires inner { c < length self.now.sources.edit.now.components.now.members }
        requires stands { Stands self.now.sources self.now.sizes.now.rows before c }
        requires recursive { slice_get self.now.sources.edit.now.components.now.recursive c
            ≡ Some true }
        ensures carried { IfOk result (IsCarriedAt self.now c) }
        ensures kept { IfOk result (IsKept self.now c) }
    {
        // What every program keeps.
        let _old = self.sources.edit.before.preds();
        let _new = self.sources.edit.after.preds();
        let own_before = self.sources.own_before[before as usize].as_slice();
        let own = self.sources.own[c as usize].as_slice();
        let standing = Standing {
            edit: self.sources.edit,
            before,
            after: c,
            own_before,
            own,
        };
        standing.carry(alloc, &self.found[before as usize])
    }

    /// What a search finds of a component.
    fn searched<N: Norm>(&self, alloc: Global, norm: &N, c: u32) -> Result<Found, AllocError>
        requires sources { AreMappingSources self.now }
        requires inner { c < length self.now.sources.edit.now.components.now.members }
        requires recursive { slice_get self.now.sources.edit.now.components.now.recursive c
            ≡ Some true }
        ensures { IfOk result (IsFound (N.expression norm.now)
            self.now.sources.edit.now.after.now self.now.sources.edit.now.components.now
            (rows_of self.now.sizes.now.rows) c) }
    {
        let edit = self.sources.edit;
        let own = ComponentClauses {
            program: edit.after,
            comps: edit.components,
            number: c,
            clauses: self.sources.own[c as usize].as_slice(),
        };
        component_mappings(alloc, &own, norm, self.sizes)
    }

    /// What is found of one component: nothing where it is not recursive, and else carried or searched.
    fn resolve<N: Norm>(&self, alloc: Global, norm: &N, c: u32) -> Result<Found, AllocError>
        requires sources { AreMappingSources self.now }
        requires inner { c < length self.now.sources.edit.now.components.now.members }
        requires found { FoundBefore (N.expression norm.now) self.now }
        requires kept { ValuesAreKept self.now }
        ensures found { IfOk result (IsFoundAt (N.expression norm.now)
            self.now.sources.edit.now.after.now self.now.sources.edit.now.components.now
            (rows_of self.now.sizes.now.rows) c) }
        ensures kept { IfOk result (IsKept self.now c) }
    {
        let edit = self.sources.edit;
        // What every program keeps.
        let _old = edit.before.preds();
        let _new = edit.after.preds();
        if !edit.components.recursive(c) {
            return Ok(Found::nothing(alloc));
        }
        match self.standing(c) {
            Some(before) => self.carried(alloc, before, c),
            None => self.searched(alloc, norm, c),
        }
    }

    /// What is found of each component, kept or searched for.
    fn resolve_all<N: Norm>(&self, alloc: Global, norm: &N) -> Result<Sequence<Found>, AllocError>
        requires sources { AreMappingSources self.now }
        requires found { FoundBefore (N.expression norm.now) self.now }
        requires kept { ValuesAreKept self.now }
        ensures found { IfOk result (AreFound (N.expression norm.now)
            self.now.sources.edit.now.after.now self.now.sources.edit.now.components.now
            (rows_of self.now.sizes.now.rows)) }
        ensures kept { IfOk result (AreKeptFound self.now) }
    {
        let mut all = Sequence::new(alloc);
        for c in 0..self.sources.edit.components.count() {
            let found = self.resolve(alloc, norm, c)?;
            all.push(found)?;
        }
        Ok(all)
    }
}

/// What is found of the mappings after an edit with the clauses of all components.
fn resolve_sources<N: Norm>(
    alloc: Global,
    norm: &N,
    sources: Sources<'_>,
    found: &[Found],
    sizes: &Sizes,
) -> Result<Sequence<Found>, AllocError>
    requires sources { AreSources sources }
    requires found { AreFound (N.expression norm.now) sources.edit.now.before.now
        sources.edit.now.components_before.now (rows_of sources.old.now.sizes.rows) found.now }
    requires rows { AreSizes sources.edit.now.after.now.preds sizes.now.rows }
    requires kept { KeepValues sources.edit.now (rows_of sources.old.now.sizes.rows)
        (rows_of sizes.now.rows) }
    ensures found { IfOk result (AreFound (N.expression norm.now) sources.entry.edit.now.after.now
        sources.entry.edit.now.components.now (rows_of sizes.now.rows)) }
    ensures kept { IfOk result (KeepFound sources.entry.edit.now
        (rows_of sources.entry.old.now.sizes.rows) (rows_of sizes.now.rows) found.now) }
{
    let stayed = stayed_rows(alloc, sources.edit, &sources.old.sizes.rows, &sizes.rows)?;
    let all = MappingSources {
        sources,
        found,
        sizes,
        stayed: stayed.as_slice(),
    };
    all.resolve_all(alloc, norm)
}

/// What is found of the mappings of a program's components after an edit, from what was found before it.
///
/// A component that stands for an old one has the mappings and the refutation of that one, in whatever order its
/// members stand; with them in the same order it has all that was found of that one. Each other recursive component is
/// searched, and of one that is not recursive nothing is found. `sizes` are the size rows after the edit, as
/// `resolve_sizes` gives them from `old`.
pub fn resolve_mappings<'a, D: Domain, N: Norm>(
    alloc: Global,
    norm: &N,
    edit: &'a Edit<'a>,
    old: &'a SolvedSizes,
    found: &'a [Found],
    sizes: &'a SolvedSizes,
) -> Result<Sequence<Found>, AllocError>
    requires edit { IsEdit edit.now }
    requires old { AreSolved D.speaks (N.expression norm.now) edit.now.before.now
        edit.now.components_before.now old.now }
    requires found { AreFound (N.expression norm.now) edit.now.before.now
        edit.now.components_before.now (rows_of old.now.sizes.rows) found.now }
    requires rows { AreSizes edit.now.after.now.preds sizes.now.sizes.rows }
    requires kept { KeepValues edit.now (rows_of old.now.sizes.rows)
        (rows_of sizes.now.sizes.rows) }

    // Each component has what is found of it, carried or searched. One that stands for an old one has the mappings and
    // the refutation of that one, and with its members in the same order it has all that was found of that one.
    ensures found { IfOk result (AreFound (N.expression norm.now) edit.now.after.now
        edit.now.components.now (rows_of sizes.now.sizes.rows)) }
    ensures kept { IfOk result (KeepFound edit.now (rows_of old.now.sizes.rows)
        (rows_of sizes.now.sizes.rows) found.now) }
{
    let own_before = own_clauses(alloc, edit.before, edit.components_before)?;
    let own = own_clauses(alloc, edit.after, edit.components)?;
    let sources = Sources {
        edit,
        old,
        own_before: own_before.as_slice(),
        own: own.as_slice(),
    };
    resolve_sources(alloc, norm, sources, found, &sizes.sizes)
}
