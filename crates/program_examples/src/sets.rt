//! Worked sets. A row is a number whose bit i is argument i.

ghost use Rattle.std.specs.Prelude.{IfOk};
ghost use Rattle.bool_diagrams.specs.Rows.{IsDiagram, Keeps, ReadsBelow};

use bool_diagrams::{Cell, Cube, Diagram, Table};
use std::alloc::{AllocError, Global};
use truth_rows::{admits, cube_rows, is_covered, upper_rows, upward_union};

/// The set of the rows of one cube of these cells.
fn set(alloc: Global, table: &mut Table, cells: &[Cell]) -> Result<Diagram, AllocError>
    ensures keeps { Keeps table.old table.new }
    ensures known { IfOk result (IsDiagram table.new) }
    ensures reads { IfOk result (λ d. ReadsBelow table.new d 2) }
{
    let cube = Cube::new(Vec::from_slice(alloc, cells)?);
    cube_rows(table, &[cube], 2)
}

/// A cube whose first cell is any has the rows with either value there.
#[test]
fn cubes_have_rows(rt: HostRuntime) {
    let mut table = Table::new(rt.alloc()).expect(&rt, "memory");
    let cells = [Cell::Any, Cell::One];
    let set = set(rt.alloc(), &mut table, &cells).expect(&rt, "memory");
    for (row, wanted) in [(0, false), (1, false), (2, true), (3, true)] {
        assert!(rt; table.eval(set, row) == wanted, "{row}");
    }
}

/// Whether the set of (1,0) and (1,1) admits the mode, its union with (0,1) does so with the rows above it, and that of
/// (0,1) alone does not.
fn are_admitted(
    alloc: Global,
    table: &mut Table,
    mode: &[u32],
    before: bool,
    after: bool,
) -> Result<bool, AllocError> {
    let first = set(alloc, table, &[Cell::Zero, Cell::One])?;
    let second = set(alloc, table, &[Cell::One, Cell::Any])?;
    let none = upper_rows(table, first, 2)?;
    let union = upward_union(table, &[first, second], 2)?;
    Ok(
        !admits(table, none, mode, 2)
            && admits(table, second, mode, 2) == before
            && admits(table, union, mode, 2) == after,
    )
}

/// A row stays where the rows above it are in the set: of (0,1) and (1,0) none does, and with (1,1) both do.
#[test]
fn upper_rows_stay(rt: HostRuntime) {
    let mut table = Table::new(rt.alloc()).expect(&rt, "memory");
    for (mode, before, after) in [
        ([1, 1], true, true),
        ([2, 2], false, false),
        ([1, 2], true, true),
    ] {
        assert!(rt;
            matches!(
                are_admitted(rt.alloc(), &mut table, &mode, before, after),
                Ok(true)
            ),
            "{mode:?}"
        );
    }
}

/// Whether (1,0) and (1,1) are true at one of the positive arguments each, and at no other.
fn covers(alloc: Global, table: &mut Table, positive: [bool; 2]) -> Result<bool, AllocError> {
    let set = set(alloc, table, &[Cell::One, Cell::Any])?;
    is_covered(table, set, positive.as_slice())
}

/// (1,0) and (1,1) are true at the first argument, and not at the second.
#[test]
fn rows_are_covered(rt: HostRuntime) {
    let mut table = Table::new(rt.alloc()).expect(&rt, "memory");
    assert!(rt; matches!(covers(rt.alloc(), &mut table, [true, false]), Ok(true)));
    assert!(rt; matches!(covers(rt.alloc(), &mut table, [true, true]), Ok(false)));
}
