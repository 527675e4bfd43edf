//! The truth rows that a clause gives to the predicate of its head.

ghost use Rattle.std.specs.Prelude.{◌↔◌, ℕ, Bool, IsTrue, IfOk};
ghost use Rattle.bool_diagrams.specs.Rows.{IsDiagram, Keeps, holds};
ghost use Rattle.truth_rows.specs.Ready.{IsReadyClause};
ghost use Rattle.groundness.specs.Sets.{Gives};

use bool_diagrams::{Diagram, Table};
use cti_terms::Clause;
use std::alloc::AllocError;
use term_size::Norm;
use truth_rows::rows_of_clause;

/// The rows of the head of a clause where those of its body are in the sets of their predicates.
pub(crate) fn clause_rows<N: Norm>(
    norm: &N,
    table: &mut Table,
    sets: &[Diagram],
    clause: &Clause,
) -> Result<Diagram, AllocError>
    requires { IsReadyClause table.old sets.now clause.now }
    ensures keeps { Keeps table.old table.new }
    ensures known { IfOk result (IsDiagram table.new) }
    ensures rows { IfOk result (λ d. (row : ℕ → Bool)
        → IsTrue (holds table.new d row)
        ↔ Gives (N.truth norm.now) table.old sets.now clause.now row) }
{
    let rows = rows_of_clause(norm, table, sets, clause)?;
    Ok(rows)
}
