//! What a certificate says of a program, sorted by predicates and clauses.

ghost use Rattle.std.specs.Prelude.{◌≡◌};

use bool_diagrams::Cube;
use certificate::CertNorm;
use linear_rows::Multipliers;
use number_tests::{LevelPart, Refutation};
use sequences::Sequence;
use std::alloc::Global;
use termination_model::SizeRows;

/// All that a certificate says of a program, but for its notes.
pub struct Parts {
    /// The norm that the certificate names: none in version 1, which is term size.
    pub norm: Option<CertNorm>,

    /// The modes of each predicate, each a list of argument numbers from 1.
    pub modes: Sequence<Sequence<Sequence<u32>>>,

    /// The size rows of each predicate.
    pub rows: SizeRows,

    /// For each clause, the multipliers of each size row of its head's predicate.
    pub row_proofs: Sequence<Sequence<Multipliers>>,

    /// The cubes of each predicate's ground rows.
    pub grounds: Sequence<Sequence<Cube>>,

    /// The parts of each predicate in the mappings of its component.
    pub levels: Sequence<Sequence<LevelPart>>,

    /// For each clause and each call of its body, the multipliers for each mapping, and none where the call is to a
    /// lower component.
    pub falls: Sequence<Sequence<Sequence<Multipliers>>>,

    /// For each predicate and each mapping of its component, the cubes of the precondition.
    pub preconditions: Sequence<Sequence<Sequence<Cube>>>,

    /// For each predicate the refutation for the component that it is the first one of, where there is one.
    pub refutations: Sequence<Option<Refutation>>,
}

impl Parts {
    /// A norm, and no parts of any predicate or clause.
    pub(crate) fn none(alloc: Global, norm: Option<CertNorm>) -> Parts
        ensures { result.norm ≡ norm }
    {
        Parts {
            norm,
            modes: Sequence::new(alloc),
            rows: SizeRows::from_vec(Vec::new(alloc)),
            row_proofs: Sequence::new(alloc),
            grounds: Sequence::new(alloc),
            levels: Sequence::new(alloc),
            falls: Sequence::new(alloc),
            preconditions: Sequence::new(alloc),
            refutations: Sequence::new(alloc),
        }
    }
}

impl Drop for Parts {
    fn drop(self) {
        let Parts {
            norm: _,
            modes: _,
            rows: _,
            row_proofs: _,
            grounds: _,
            levels: _,
            falls: _,
            preconditions: _,
            refutations: _,
        } = self;
    }
}
