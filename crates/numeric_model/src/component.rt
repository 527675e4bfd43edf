//! One component above the rows of those that it calls.

ghost use Rattle.std.specs.Prelude.{◌≡◌, ◌<◌, ℕ, IfOk, OnOk, length, slice_get, slice_set, Some, if◌then◌else◌};
ghost use Rattle.call_components.specs.Partition.{AreComponents};
ghost use Rattle.linear_rows.specs.declared.row.Rows.{Rows as TheRows};
ghost use Rattle.termination_model.specs.sizes.Sizes.{AreSizes, rows_of};
ghost use Rattle.numeric_model.specs.Parts.{IsPartOf};
ghost use Rattle.termination_model.specs.chains.Runs.{is_before};

use crate::chain::Chain;
use crate::state::State;
use call_components::Components;
use component_clauses::{ComponentClauses, own_clauses};
use cti_terms::{PredId, Program};
use polyhedra::Domain;
use std::alloc::{AllocError, Global};
use term_size::Norm;
use termination_model::{SizeRows, Sizes};

/// Finds size rows of a component's predicates by the steps of a legal chain above the rows of the predicates that it
/// calls, and proves them.
///
/// What `below` has for other components than earlier ones does not matter.
pub fn solve_component<D: Domain, N: Norm>(
    alloc: Global,
    p: &Program,
    comps: &Components,
    c: u32,
    norm: &N,
    below: &Sizes,
) -> Result<Chain, AllocError>
    requires components { AreComponents p.now comps.now }
    requires inner { c < length comps.now.members }
    requires below { AreSizes p.now.preds below.now.rows }
    ensures { IfOk result (IsPartOf D.speaks (N.expression norm.now) p.now comps.now c
        (rows_of below.now.rows)) }
{
    let _program = p.clauses();
    let own = own_clauses(alloc, p, comps)?;
    let mut state = State::<D>::start(alloc, p)?;
    put_below(alloc, p, comps, c, &below.rows, &mut state.sizes.rows)?;
    let component = ComponentClauses {
        program: p,
        comps,
        number: c,
        clauses: own[c as usize].as_slice(),
    };
    state.run_passes(alloc, norm, &component)?;
    Ok(state.into_chain())
}

/// Puts in the rows of the predicates of earlier components.
fn put_below(
    alloc: Global,
    p: &Program,
    comps: &Components,
    c: u32,
    below: &SizeRows,
    rows: &mut SizeRows,
) -> Result<(), AllocError>
    requires components { AreComponents p.now comps.now }
    requires below { AreSizes p.now.preds below.now }
    requires rows { AreSizes p.now.preds rows.old }
    ensures sizes { OnOk result (AreSizes p.now.preds rows.new) }
    ensures rows { OnOk result ((q : ℕ)
        → rows_of rows.new q ≡ (if is_before c
        (slice_get comps.now.of q) then rows_of below.now q else rows_of rows.old q)) }
{
    for q in 0..p.preds() {
        put_if_below(alloc, comps, c, below, rows, PredId(q))?;
    }
    Ok(())
}

/// Puts in the rows of a predicate, if it is below the component.
fn put_if_below(
    alloc: Global,
    comps: &Components,
    c: u32,
    below: &SizeRows,
    rows: &mut SizeRows,
    q: PredId,
) -> Result<(), AllocError>
    requires there { q.0 < length comps.now.of }
    requires below { q.0 < length below.now }
    requires rows { q.0 < length rows.old }
    ensures { OnOk result ((r : TheRows) → slice_get below.now q.0 ≡ Some r
        → rows.new ≡ (if is_before c
        (slice_get comps.now.of q.0) then slice_set rows.old q.0 r else rows.old)) }
{
    if comps.of(q) < c {
        let own = below.get(q.0 as usize).copy(alloc)?;
        rows.set(q.0 as usize, own);
    }
    Ok(())
}
