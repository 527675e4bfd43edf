//! Whether a set has the row of a mode.

ghost use Rattle.std.specs.Prelude.{◌≡◌, ◌≤◌, ◌+◌, ◌<◌, ◌==◌, ℕ};
ghost use Rattle.std.specs.List.{list_any};
ghost use Rattle.bool_diagrams.specs.Cubes.{truth_rows};
ghost use Rattle.bool_diagrams.specs.Rows.{IsDiagram, ReadsBelow, bit_of};
ghost use Rattle.termination_model.specs.claims.Descent.{mode_row};

use bool_diagrams::{Diagram, Table};
use cti_terms::MOST_ARGUMENTS;

/// Whether a set has the row of a mode: the arguments that the mode names, counted from 1, are true, and the
/// others of `arity` arguments are false. It takes no memory.
pub fn admits(table: &Table, set: Diagram, mode: &[u32], arity: u32) -> bool
    requires known { IsDiagram table.now set }
    requires reads { ReadsBelow table.now set arity }
    requires narrow { arity ≤ MOST_ARGUMENTS }
    ensures { result ≡ truth_rows table.now set (mode_row mode.now 1 arity) }
{
    table.eval(set, row_of_mode(mode, arity))
}

/// The number of the row: bit i is argument i.
fn row_of_mode(mode: &[u32], arity: u32) -> u64
    requires narrow { arity ≤ MOST_ARGUMENTS }
    ensures { (i : ℕ) → i < arity → bit_of result i ≡ list_any (λ j. j == i + 1) mode.now }
{
    let mut row = 0_u64;
    for argument in mode {
        if *argument == 0 || *argument > arity {
            continue;
        }
        row |= 1 << (*argument - 1);
    }
    row
}
