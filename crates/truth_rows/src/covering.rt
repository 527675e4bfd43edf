//! Whether rows are true at each positive coefficient.

ghost use Rattle.std.specs.Prelude.{◌≡◌, ◌↔◌, ◌≤◌, ℕ, Bool, IsTrue, IfOk, List, length, map, nat_lt};
ghost use Rattle.bool_diagrams.specs.Cubes.{truth_rows};
ghost use Rattle.bool_diagrams.specs.Rows.{IsDiagram, Keeps, ReadsBelow};
ghost use Rattle.termination_model.specs.sizes.Rows.{Covers};

use crate::inside::is_inside;
use bool_diagrams::{Diagram, Table};
use cti_terms::MOST_ARGUMENTS;
use std::alloc::AllocError;

/// Whether each row of a set is true wherever a coefficient is positive.
///
/// `positive` says of each argument whether its coefficient is: the clause holds for all coefficients with these signs.
pub fn is_covered(table: &mut Table, set: Diagram, positive: &[bool]) -> Result<bool, AllocError>
    requires known { IsDiagram table.old set }
    requires reads { ReadsBelow table.old set (length positive.now) }
    requires narrow { length positive.now ≤ MOST_ARGUMENTS }
    ensures keeps { Keeps table.old table.new }
    ensures covered { IfOk result (λ covered. (coefficients : List ℕ)
        → map (nat_lt 0) coefficients ≡ positive.now
        → IsTrue covered ↔ ((row : List Bool) → length row ≡ length positive.now
        → IsTrue (truth_rows table.old set row) → Covers coefficients row)) }
{
    for (argument, is_positive) in positive.iter().enumerate() {
        if !*is_positive {
            continue;
        }
        let rigid = table.var(argument as u32)?;
        let inside = is_inside(table, set, rigid)?;
        if !inside {
            return Ok(false);
        }
    }
    Ok(true)
}
