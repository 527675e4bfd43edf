//! One component above the rows of those that it calls.

ghost use Rattle.std.specs.Prelude.{◌≡◌, ◌<◌, ℕ, IfOk, OnOk, length, slice_get, slice_set, Some, if◌then◌else◌};
ghost use Rattle.call_components.specs.Partition.{AreComponents};
ghost use Rattle.linear_rows.specs.declared.row.Rows.{Rows as TheRows};
ghost use Rattle.termination_model.specs.sizes.Sizes.{rows_of};
ghost use Rattle.size_chains.specs.Parts.{IsPartOf};
ghost use Rattle.termination_model.specs.chains.Runs.{is_before};
ghost use Rattle.size_chains.specs.Systems.{AreSizes};

use crate::chain::Chain;
use crate::clause_systems::ClauseSystems;
use crate::state::State;
use call_components::Components;
use component_clauses::{ComponentClauses, own_clauses};
use cti_terms::PredId;
use polyhedra::Domain;
use std::alloc::{AllocError, Global};
use termination_model::{SizeRows, Sizes};

/// Finds size rows of a component's predicates by the steps of a legal chain above the rows of the predicates that it
/// calls, and proves them.
///
/// What `below` has for other components than earlier ones does not matter.
pub fn solve_component<D: Domain, S: ClauseSystems>(
    alloc: Global,
    systems: &S,
    comps: &Components,
    c: u32,
    below: &Sizes,
) -> Result<Chain, AllocError>
    requires components { AreComponents (S.listing systems.now) comps.now }
    requires inner { c < length comps.now.members }
    requires below { AreSizes (S.systems systems.now) (S.listing systems.now).preds below.now.rows }
    ensures { IfOk result (IsPartOf D.speaks (S.systems systems.now) (S.listing systems.now) comps.now c
        (rows_of below.now.rows)) }
{
    let p = systems.program();
    let own = own_clauses(alloc, p, comps)?;
    let mut state = State::<D>::start(alloc, systems)?;
    put_below(alloc, systems, comps, c, &below.rows, &mut state.sizes.rows)?;
    let component = ComponentClauses {
        program: p,
        comps,
        number: c,
        clauses: own[c as usize].as_slice(),
    };
    state.run_passes(alloc, systems, &component)?;
    Ok(state.into_chain())
}

/// Puts in the rows of the predicates of earlier components.
fn put_below<S: ClauseSystems>(
    alloc: Global,
    systems: &S,
    comps: &Components,
    c: u32,
    below: &SizeRows,
    rows: &mut SizeRows,
) -> Result<(), AllocError>
    requires components { AreComponents (S.listing systems.now) comps.now }
    requires below { AreSizes (S.systems systems.now) (S.listing systems.now).preds below.now }
    requires rows { AreSizes (S.systems systems.now) (S.listing systems.now).preds rows.old }
    ensures sizes { OnOk result
        (AreSizes (S.systems systems.now) (S.listing systems.now).preds rows.new) }
    ensures rows { OnOk result ((q : ℕ)
        → rows_of rows.new q ≡ (if is_before c
        (slice_get comps.now.of q) then rows_of below.now q else rows_of rows.old q)) }
{
    for q in 0..systems.program().preds() {
        put_if_below(alloc, comps, c, below, rows, PredId(q))?;
    }
    Ok(())
}

/// Puts in the rows of a predicate, if it is below the component.
fn put_if_below(
    alloc: Global,
    comps: &Components,
    c: u32,
    below: &SizeRows,
    rows: &mut SizeRows,
    q: PredId,
) -> Result<(), AllocError>
    requires there { q.0 < length comps.now.of }
    requires below { q.0 < length below.now }
    requires rows { q.0 < length rows.old }
    ensures { OnOk result ((r : TheRows) → slice_get below.now q.0 ≡ Some r
        → rows.new ≡ (if is_before c
        (slice_get comps.now.of q.0) then slice_set rows.old q.0 r else rows.old)) }
{
    if comps.of(q) < c {
        let own = below.get(q.0 as usize).copy(alloc)?;
        rows.set(q.0 as usize, own);
    }
    Ok(())
}
