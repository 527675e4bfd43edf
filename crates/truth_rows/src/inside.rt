//! Whether a set is inside another.

ghost use Rattle.std.specs.Prelude.{◌↔◌, ℕ, Bool, IsTrue, IfOk};
ghost use Rattle.bool_diagrams.specs.Rows.{IsDiagram, Keeps, holds};

use bool_diagrams::{Diagram, Table};
use std::alloc::AllocError;

/// Whether each row of a set is in another set: what they share is then the first set.
pub fn is_inside(table: &mut Table, inner: Diagram, outer: Diagram) -> Result<bool, AllocError>
    requires inner { IsDiagram table.old inner }
    requires outer { IsDiagram table.old outer }
    ensures keeps { Keeps table.old table.new }
    ensures rows { IfOk result (λ inside. IsTrue inside
        ↔ ((row : ℕ → Bool) → IsTrue (holds table.old inner row)
        → IsTrue (holds table.old outer row))) }
{
    let shared = table.and(inner, outer)?;
    Ok(table.same(inner, shared))
}
