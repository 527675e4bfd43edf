//! Preconditions, and what they are solved from.

use bool_diagrams::Diagram;
use number_tests::LevelPart;
use sequences::Sequence;

/// What the preconditions of a program are solved from.
#[derive(Clone, Copy)]
pub struct Inputs<'a> {
    /// For each predicate its ground rows.
    pub grounds: &'a [Diagram],
    /// For each predicate its part in each mapping of its component.
    pub levels: &'a [Sequence<LevelPart>],
}

/// The greatest preconditions of a program, in a table of diagrams.
pub struct SolvedPreconditions {
    /// For each predicate a set of truth rows for each mapping of its component.
    pub sets: Sequence<Sequence<Diagram>>,
    /// For each predicate what is allowed of it: the rows that one of its sets has with all upper rows.
    pub allowed: Sequence<Diagram>,
}

impl Drop for SolvedPreconditions {
    fn drop(self) {
        let SolvedPreconditions {
            sets: _,
            allowed: _,
        } = self;
    }
}

/// The preconditions of a program before an edit, and what they were solved from.
#[derive(Clone, Copy)]
pub struct PreconditionsBefore<'a> {
    pub inputs: Inputs<'a>,
    pub solved: &'a SolvedPreconditions,
}
