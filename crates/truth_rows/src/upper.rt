//! Rows all of whose upper rows are in a set.

ghost use Rattle.std.specs.Prelude.{◌≡◌, ◌≤◌, ◌<◌, ◌&&◌, ℕ, Bool, true, IfOk, List, length, slice_get, Some};
ghost use Rattle.std.specs.List.{list_any};
ghost use Rattle.bool_diagrams.specs.declared.diagram.Diagram.{Diagram};
ghost use Rattle.bool_diagrams.specs.Cubes.{truth_rows};
ghost use Rattle.bool_diagrams.specs.Rows.{IsDiagram, Keeps, ReadsBelow, holds};
ghost use Rattle.bool_diagrams.specs.Tree.{with_value};
ghost use Rattle.termination_model.specs.mappings.View.{all_upper};

use bool_diagrams::{Diagram, Table, VARIABLES};
use std::alloc::AllocError;

/// The rows that some set has with all rows that are upper to it. A row is upper to another where it is true wherever
/// the other is.
pub fn upward_union(table: &mut Table, sets: &[Diagram], width: u32) -> Result<Diagram, AllocError>
    requires known { (i : ℕ) (d : Diagram) → slice_get sets.now i ≡ Some d → IsDiagram table.old d }
    requires reads { (i : ℕ) (d : Diagram) → slice_get sets.now i ≡ Some d
        → ReadsBelow table.old d width }
    requires narrow { width ≤ VARIABLES }
    ensures keeps { Keeps table.old table.new }
    ensures known { IfOk result (IsDiagram table.new) }
    ensures reads { IfOk result (λ d. ReadsBelow table.new d width) }
    ensures rows { IfOk result (λ d. (row : List Bool) → length row ≡ width
        → truth_rows table.new d row ≡ list_any
        (λ s. all_upper (truth_rows table.old s) row) sets.now) }
{
    let mut rows = table.truth(false);
    for set in sets {
        let upper = upper_rows(table, *set, width)?;
        rows = table.or(rows, upper)?;
    }
    Ok(rows)
}

/// The rows of a set all of whose upper rows are in it.
pub fn upper_rows(table: &mut Table, set: Diagram, width: u32) -> Result<Diagram, AllocError>
    requires known { IsDiagram table.old set }
    requires reads { ReadsBelow table.old set width }
    requires narrow { width ≤ VARIABLES }
    ensures keeps { Keeps table.old table.new }
    ensures known { IfOk result (IsDiagram table.new) }
    ensures reads { IfOk result (λ d. ReadsBelow table.new d width) }
    ensures rows { IfOk result (λ d. (row : List Bool) → length row ≡ width
        → truth_rows table.new d row ≡ all_upper (truth_rows table.old set) row) }
{
    let mut rows = set;
    for argument in 0..width {
        rows = raised_rows(table, rows, argument)?;
    }
    Ok(rows)
}

/// The rows of a set that stay in it where an argument becomes true.
fn raised_rows(table: &mut Table, set: Diagram, argument: u32) -> Result<Diagram, AllocError>
    requires known { IsDiagram table.old set }
    requires argument { argument < VARIABLES }
    ensures keeps { Keeps table.old table.new }
    ensures known { IfOk result (IsDiagram table.new) }
    ensures rows { IfOk result (λ d. (row : ℕ → Bool)
        → holds table.new d row ≡ (holds table.old set row
        && holds table.old set (with_value row argument true))) }
{
    let rigid = table.var(argument)?;
    let with_it = table.and(set, rigid)?;
    let raised = table.exists(with_it, argument)?;
    table.and(set, raised)
}
