//! What is kept of a program.

use bool_diagrams::Diagram;
use carried_preconditions::SolvedPreconditions;
use level_systems::Found;
use number_tests::LevelPart;
use precond_fixpoint::Mode;
use sequences::Sequence;
use solved_program::SolvedSizes;

/// What is found of the sizes and the mappings of a program.
pub(crate) struct KeptNumbers {
    pub(crate) sizes: SolvedSizes,
    /// For each component what is found of its mappings.
    pub(crate) found: Sequence<Found>,
    /// For each predicate its part in each mapping of its component.
    pub(crate) levels: Sequence<Sequence<LevelPart>>,
}

impl Drop for KeptNumbers {
    fn drop(self) {
        let KeptNumbers {
            sizes: _,
            found: _,
            levels: _,
        } = self;
    }
}

/// The sets of truth rows of a program's predicates, in a table of diagrams, and the modes that they give.
pub(crate) struct KeptSets {
    /// For each predicate its ground rows.
    pub(crate) grounds: Vec<Diagram>,
    pub(crate) preconditions: SolvedPreconditions,
    /// For each predicate its minimal modes.
    pub(crate) modes: Sequence<Sequence<Mode>>,
}

impl Drop for KeptSets {
    fn drop(self) {
        let KeptSets {
            grounds: _,
            preconditions: _,
            modes: _,
        } = self;
    }
}

/// All that is kept of a program.
pub(crate) struct Kept {
    pub(crate) numbers: KeptNumbers,
    pub(crate) sets: KeptSets,
}

impl Drop for Kept {
    fn drop(self) {
        let Kept {
            numbers: _,
            sets: _,
        } = self;
    }
}
