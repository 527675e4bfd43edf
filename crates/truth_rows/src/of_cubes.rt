//! The set that cubes spell.

ghost use Rattle.std.specs.Prelude.{◌≡◌, ◌↔◌, ◌≤◌, ◌<◌, ◌&&◌, ℕ, Bool, IsTrue, IfOk, List, length};
ghost use Rattle.truth_rows.specs.Ready.{HasCells};
ghost use Rattle.bool_diagrams.specs.Cubes.{allows, covered, truth_rows};
ghost use Rattle.bool_diagrams.specs.Rows.{IsDiagram, Keeps, ReadsBelow, holds};

use bool_diagrams::{Cell, Cube, Diagram, Table, VARIABLES};
use std::alloc::AllocError;

/// The rows that some of the cubes covers.
///
/// A cube with another number of cells than `width` covers no row of that width.
pub fn cube_rows(table: &mut Table, cubes: &[Cube], width: u32) -> Result<Diagram, AllocError>
    requires narrow { width ≤ VARIABLES }
    ensures keeps { Keeps table.old table.new }
    ensures known { IfOk result (IsDiagram table.new) }
    ensures reads { IfOk result (λ d. ReadsBelow table.new d width) }
    ensures rows { IfOk result (λ d. (row : List Bool) → length row ≡ width
        → truth_rows table.new d row ≡ covered cubes.now row) }
{
    let mut rows = table.truth(false);
    for cube in cubes {
        let cells = cube.cells();
        if cells.len() != width as usize {
            continue;
        }
        let agreeing = cell_rows(table, cells)?;
        rows = table.or(rows, agreeing)?;
    }
    Ok(rows)
}

/// The rows that agree with each cell.
fn cell_rows(table: &mut Table, cells: &[Cell]) -> Result<Diagram, AllocError>
    requires narrow { length cells.now ≤ VARIABLES }
    ensures keeps { Keeps table.old table.new }
    ensures known { IfOk result (IsDiagram table.new) }
    ensures rows { IfOk result (λ d. (row : ℕ → Bool)
        → IsTrue (holds table.new d row) ↔ HasCells row cells.now (length cells.now)) }
{
    let mut rows = table.truth(true);
    for (argument, cell) in cells.iter().enumerate() {
        rows = agreeing_rows(table, rows, argument as u32, *cell)?;
    }
    Ok(rows)
}

/// The rows of a set that agree with a cell.
fn agreeing_rows(
    table: &mut Table,
    set: Diagram,
    argument: u32,
    cell: Cell,
) -> Result<Diagram, AllocError>
    requires known { IsDiagram table.old set }
    requires argument { argument < VARIABLES }
    ensures keeps { Keeps table.old table.new }
    ensures known { IfOk result (IsDiagram table.new) }
    ensures rows { IfOk result (λ d. (row : ℕ → Bool)
        → holds table.new d row ≡ (holds table.old set row && allows cell (row argument))) }
{
    match cell {
        Cell::Any => Ok(set),
        Cell::One => {
            let rigid = table.var(argument)?;
            table.and(set, rigid)
        }
        Cell::Zero => {
            let rigid = table.var(argument)?;
            let other = table.not(rigid)?;
            table.and(set, other)
        }
    }
}
