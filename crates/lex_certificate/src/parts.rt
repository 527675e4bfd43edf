//! What a certificate of lists says of a program, sorted by predicates and clauses.

use bool_diagrams::Cube;
use linear_rows::Multipliers;
use number_tests::{LevelPart, Refutation};
use sequences::Sequence;
use std::alloc::Global;
use termination_model::SizeRows;

/// All that a certificate of lists says of a program, but for its notes.
pub struct LexParts {
    /// The modes of each predicate, each a list of argument numbers from 1.
    pub modes: Sequence<Sequence<Sequence<u32>>>,

    /// The size rows of each predicate.
    pub rows: SizeRows,

    /// For each clause, the multipliers of each size row of its head's predicate.
    pub row_proofs: Sequence<Sequence<Multipliers>>,

    /// The cubes of each predicate's ground rows.
    pub grounds: Sequence<Sequence<Cube>>,

    /// For each predicate and each list of its component, its parts in the list's measures.
    pub lists: Sequence<Sequence<Sequence<LevelPart>>>,

    /// For each clause, each call of its body and each list, the multipliers for each measure up to the call's place,
    /// and none where the call is to a lower component.
    pub drops: Sequence<Sequence<Sequence<Sequence<Multipliers>>>>,

    /// For each predicate and each list of its component, the cubes of the precondition.
    pub preconditions: Sequence<Sequence<Sequence<Cube>>>,

    /// For each predicate the stuck set of the component that it is the first one of, where there is one. Its pairs
    /// have no second points.
    pub stuck: Sequence<Option<Refutation>>,
}

impl LexParts {
    /// No parts of any predicate or clause.
    pub(crate) fn none(alloc: Global) -> LexParts {
        LexParts {
            modes: Sequence::new(alloc),
            rows: SizeRows::from_vec(Vec::new(alloc)),
            row_proofs: Sequence::new(alloc),
            grounds: Sequence::new(alloc),
            lists: Sequence::new(alloc),
            drops: Sequence::new(alloc),
            preconditions: Sequence::new(alloc),
            stuck: Sequence::new(alloc),
        }
    }
}

impl Drop for LexParts {
    fn drop(self) {
        let LexParts {
            modes: _,
            rows: _,
            row_proofs: _,
            grounds: _,
            lists: _,
            drops: _,
            preconditions: _,
            stuck: _,
        } = self;
    }
}
