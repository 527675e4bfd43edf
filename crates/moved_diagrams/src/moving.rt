//! Sets in another table.

ghost use Rattle.std.specs.Prelude.{◌≡◌, ◌≤◌, ◌<◌, ℕ, IfOk, OnOk, Some, length, slice_get};
ghost use Rattle.bool_diagrams.specs.Rows.{IsDiagram, Keeps, ReadsBelow};
ghost use Rattle.bool_diagrams.specs.declared.diagram.Diagram.{Diagram as TheDiagram};
ghost use Rattle.truth_rows.specs.Sets.{AreSets};
ghost use Rattle.moved_diagrams.specs.Moved.{AreDiagramsBelow, AreLists, AreMovedLists, AreMovedOwn, AreMovedSets};
ghost use Rattle.moved_diagrams.specs.Moved.{IsMoved};

use bool_diagrams::{Diagram, Table, VARIABLES};
use cti_terms::{PredId, Program};
use sequences::Sequence;
use std::alloc::{AllocError, Global};
use truth_rows::cube_rows;

/// A set of rows of this length, in another table.
pub fn moved(
    table: &Table,
    set: Diagram,
    arity: u32,
    into: &mut Table,
) -> Result<Diagram, AllocError>
    requires known { IsDiagram table.now set }
    requires reads { ReadsBelow table.now set arity }
    requires narrow { arity ≤ VARIABLES }
    ensures keeps { Keeps into.old into.new }
    ensures moved { IfOk result (IsMoved arity table.now set into.new) }
{
    let cubes = table.paths(set, arity)?;
    cube_rows(into, &cubes, arity)
}

/// The set of each predicate, in another table.
pub fn moved_sets(
    alloc: Global,
    p: &Program,
    table: &Table,
    sets: &[Diagram],
    into: &mut Table,
) -> Result<Vec<Diagram>, AllocError>
    requires sets { AreSets p.now.preds table.now sets.now }
    ensures keeps { Keeps into.old into.new }
    ensures moved { IfOk result
        (λ new. AreMovedSets p.now.preds table.now sets.now into.new new.items) }
{
    let mut all = Vec::new(alloc);
    for q in 0..p.preds() {
        let arity = p.pred(PredId(q)).arity;
        all.push(moved(table, sets[q as usize], arity, into)?)?;
    }
    Ok(all)
}

/// The sets of one predicate, in another table.
fn moved_own(
    alloc: Global,
    table: &Table,
    sets: &[Diagram],
    arity: u32,
    into: &mut Table,
) -> Result<Sequence<Diagram>, AllocError>
    requires sets { AreDiagramsBelow table.now arity sets.now }
    requires narrow { arity ≤ VARIABLES }
    ensures keeps { Keeps into.old into.new }
    ensures moved { IfOk result (AreMovedOwn arity table.now sets.now into.new) }
{
    let mut own = Sequence::new(alloc);
    for set in sets {
        own.push(moved(table, *set, arity, into)?)?;
    }
    Ok(own)
}

/// The sets of each predicate, in another table.
pub fn moved_lists(
    alloc: Global,
    p: &Program,
    table: &Table,
    lists: &[Sequence<Diagram>],
    into: &mut Table,
) -> Result<Sequence<Sequence<Diagram>>, AllocError>
    requires lists { AreLists p.now.preds table.now lists.now }
    ensures keeps { Keeps into.old into.new }
    ensures moved { IfOk result
        (AreMovedLists p.now.preds table.now lists.now into.new) }
{
    let mut all = Sequence::new(alloc);
    for q in 0..p.preds() {
        let arity = p.pred(PredId(q)).arity;
        let own = moved_own(alloc, table, lists[q as usize].as_slice(), arity, into)?;
        all.push(own)?;
    }
    Ok(all)
}
