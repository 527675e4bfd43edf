//! Systems that go on from atom to atom as long as clause and atoms ascend.

ghost use Rattle.std.specs.Prelude.{◌≡◌, ◌-◌, ◌≤◌, IfOk, Some, length, slice_get};
ghost use Rattle.number_tests.specs.Systems.{IsReached};
ghost use Rattle.cti_terms.specs.declared.clauses.Clause.{Clause};
ghost use Rattle.termination_model.specs.sizes.Sizes.{AreSizes, rows_of};

use crate::clause_systems::{extend, first_system};
use crate::reached::Reached;
use cti_terms::Program;
use linear_rows::{Rows, System};
use std::alloc::{AllocError, Global};
use term_size::Norm;
use termination_model::SizeRows;

/// The system of no clause. It takes no memory.
pub(crate) fn nothing_reached(alloc: Global) -> Reached
    ensures { result.clause ≡ 0 }
{
    Reached {
        clause: 0,
        atoms: 0,
        system: System {
            variables: 0,
            rows: Rows::new(alloc, 0),
            head: Rows::new(alloc, 0),
            wide: false,
        },
    }
}

/// A system of the clause from which the atom can be reached: the one that is there, or that before the first atom.
fn resume<N: Norm>(
    alloc: Global,
    p: &Program,
    norm: &N,
    sizes: &SizeRows,
    old: Reached,
    k: u32,
    j: usize,
) -> Result<Reached, AllocError>
    requires first { 1 ≤ k }
    requires last { k ≤ length p.now.clauses }
    requires sizes { AreSizes p.now.preds sizes.now }
    requires old { IsReached (N.expression norm.now) (rows_of sizes.now) p.now old }
    ensures reached { IfOk result (IsReached (N.expression norm.now) (rows_of sizes.now) p.now) }
    ensures clause { IfOk result (λ r. r.clause ≡ k) }
    ensures atoms { IfOk result (λ r. r.atoms ≤ j) }
{
    if old.clause == k && old.atoms <= j {
        return Ok(old);
    }
    Ok(Reached {
        clause: k,
        atoms: 0,
        system: first_system(alloc, norm, sizes, p.clause(k))?,
    })
}

/// The system of a clause up to atom `j`, made from the one that is there where that is of the clause.
pub(crate) fn reach<N: Norm>(
    alloc: Global,
    p: &Program,
    norm: &N,
    sizes: &SizeRows,
    old: Reached,
    k: u32,
    j: usize,
) -> Result<Reached, AllocError>
    requires first { 1 ≤ k }
    requires last { k ≤ length p.now.clauses }
    requires body { (c : Clause) → slice_get p.now.clauses (k - 1) ≡ Some c → j ≤ length c.body }
    requires sizes { AreSizes p.now.preds sizes.now }
    requires old { IsReached (N.expression norm.now) (rows_of sizes.now) p.now old }
    ensures reached { IfOk result (IsReached (N.expression norm.now) (rows_of sizes.now) p.now) }
    ensures clause { IfOk result (λ r. r.clause ≡ k) }
    ensures atoms { IfOk result (λ r. r.atoms ≡ j) }
{
    let mut reached = resume(alloc, p, norm, sizes, old, k, j)?;
    let clause = p.clause(k);
    extend(
        alloc,
        norm,
        sizes,
        clause,
        reached.atoms,
        j,
        &mut reached.system,
    )?;
    reached.atoms = j;
    Ok(reached)
}
