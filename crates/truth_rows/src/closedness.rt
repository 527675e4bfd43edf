//! Whether the sets are closed under a clause.

ghost use Rattle.std.specs.Prelude.{◌≡◌, ◌↔◌, ◌≤◌, ◌-◌, ℕ, Bool, IsTrue, IfOk, length, slice_get, Some};
ghost use Rattle.truth_rows.specs.Ready.{HasAtom, HasAtoms, IsReadyClause};
ghost use Rattle.truth_rows.specs.Sets.{AreSets, family_of};
ghost use Rattle.bool_diagrams.specs.Rows.{Keeps};
ghost use Rattle.cti_terms.specs.declared.clauses.Clause.{Clause};
ghost use Rattle.termination_model.specs.grounds.Grounds.{IsClosedUnder};

use crate::clause_rows::rows_of_clause;
use crate::inside::is_inside;
use bool_diagrams::{Diagram, Table};
use cti_terms::{Clause, Program};
use std::alloc::AllocError;
use term_size::Norm;

/// Whether sets, one for each predicate, are closed under a clause of the program: wherever the truth rows of its
/// body are in their sets, that of its head is.
///
/// Clauses count from 1.
pub fn is_closed_under<N: Norm>(
    norm: &N,
    table: &mut Table,
    p: &Program,
    sets: &[Diagram],
    k: u32,
) -> Result<bool, AllocError>
    requires sets { AreSets p.now.preds table.old sets.now }
    requires first { 1 ≤ k }
    requires last { k ≤ length p.now.clauses }
    ensures keeps { Keeps table.old table.new }
    ensures closed { IfOk result (λ closed. (c : Clause) → slice_get p.now.clauses (k - 1) ≡ Some c
        → IsTrue closed ↔ IsClosedUnder (N.truth norm.now)
        (family_of p.now.preds table.old sets.now) c) }
{
    // What every program keeps is said by `clauses`: the sets of its atoms are there.
    let _count = p.clauses();
    head_follows(norm, table, sets, p.clause(k))
}

/// Whether the head is in its set wherever the body is in its sets.
fn head_follows<N: Norm>(
    norm: &N,
    table: &mut Table,
    sets: &[Diagram],
    clause: &Clause,
) -> Result<bool, AllocError>
    requires { IsReadyClause table.old sets.now clause.now }
    ensures keeps { Keeps table.old table.new }
    ensures follows { IfOk result (λ follows. IsTrue follows
        ↔ ((v : ℕ → Bool) → HasAtoms (N.truth norm.now) table.old sets.now v clause.now.body
        (length clause.now.body)
        → HasAtom (N.truth norm.now) table.old sets.now v clause.now.head)) }
{
    let given = rows_of_clause(norm, table, sets, clause)?;
    is_inside(table, given, sets[clause.head.pred.0 as usize])
}
