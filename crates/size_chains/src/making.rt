//! The system of a clause, for the steps on it.

ghost use Rattle.std.specs.Prelude.{◌≡◌, ◌≤◌, ◌-◌, IfOk, length, slice_get, Some};
ghost use Rattle.cti_terms.specs.declared.clauses.Clause.{Clause};
ghost use Rattle.termination_model.specs.sizes.Sizes.{rows_of};
ghost use Rattle.size_chains.specs.Making.{IsMade};
ghost use Rattle.size_chains.specs.Systems.{AreSizes};

use crate::clause_systems::ClauseSystems;
use linear_rows::System;
use std::alloc::{AllocError, Global};
use termination_model::Sizes;

/// The system of clause `k`, with a natural for each column of its head that has no expression.
pub(crate) fn system_of<S: ClauseSystems>(
    alloc: Global,
    systems: &S,
    sizes: &Sizes,
    k: u32,
) -> Result<System, AllocError>
    requires first { 1 ≤ k }
    requires last { k ≤ length (S.listing systems.now).clauses }
    requires sizes { AreSizes (S.systems systems.now) (S.listing systems.now).preds sizes.now.rows }
    ensures { IfOk result (λ s. (c : Clause)
        → slice_get (S.listing systems.now).clauses (k - 1) ≡ Some c
        → IsMade (S.systems systems.now) (rows_of sizes.now.rows) c s) }
{
    let _clause = systems.program().clause(k);
    let system = systems.system(alloc, sizes, k)?;
    system.tied(alloc)
}
