//! How far the preconditions after an edit have come.

ghost use Rattle.std.specs.Prelude.{◌≡◌, ℕ, Bool, false, IfOk};
ghost use Rattle.bool_diagrams.specs.Rows.{IsDiagram, holds};
ghost use Rattle.carried_preconditions.specs.Resolving.{HasRoom};

use crate::preconditions::SolvedPreconditions;
use bool_diagrams::{Diagram, Table};
use cti_terms::Program;
use groundness::Marks;
use sequences::Sequence;
use std::alloc::{AllocError, Global};

/// What the search of one component writes into, whatever is in it before.
pub(crate) struct Room {
    /// A mark or none for each clause.
    pub(crate) marks: Marks,
    /// A set for each predicate.
    pub(crate) sets: Vec<Diagram>,
}

impl Drop for Room {
    fn drop(self) {
        let Room { marks: _, sets: _ } = self;
    }
}

impl Room {
    /// No marks, and an empty set for each predicate.
    pub(crate) fn new(
        alloc: Global,
        p: &Program,
        none: Diagram,
        table: &Table,
    ) -> Result<Room, AllocError>
        requires known { IsDiagram table.now none }
        requires none { (row : ℕ → Bool) → holds table.now none row ≡ false }
        ensures { IfOk result (HasRoom p.now table.now) }
    {
        let marks = Marks::none(alloc, p.clauses())?;
        let sets = vec![in alloc; none; p.preds() as usize]?;
        Ok(Room { marks, sets })
    }
}

/// How far the components have come.
pub(crate) struct Progress {
    pub(crate) room: Room,
    pub(crate) sets: Vec<Sequence<Diagram>>,
    pub(crate) allowed: Vec<Diagram>,
    /// For each predicate a mark, where its values stayed.
    pub(crate) stayed: Vec<bool>,
}

impl Drop for Progress {
    fn drop(self) {
        let Progress {
            room: _,
            sets: _,
            allowed: _,
            stayed: _,
        } = self;
    }
}

impl Progress {
    /// What was found.
    pub(crate) fn into_solved(self) -> SolvedPreconditions
        ensures sets { result.sets ≡ self.sets.items }
        ensures allowed { result.allowed ≡ self.allowed.items }
    {
        let Progress {
            room: _,
            sets,
            allowed,
            stayed: _,
        } = self;
        SolvedPreconditions {
            sets: Sequence::from_vec(sets),
            allowed: Sequence::from_vec(allowed),
        }
    }
}
