//! What a certificate of measures with numbers says of a program, sorted by predicates and clauses.

use crate::stuck::StuckSet;
use bool_diagrams::Cube;
use linear_rows::Multipliers;
use number_tests::LevelPart;
use prove_certificate::CertKind;
use sequences::Sequence;
use termination_model::SizeRows;

/// All that a certificate of measures with numbers says of a program, but for its notes.
pub struct ProveParts {
    /// The modes of each predicate, each a list of argument numbers from 1.
    pub modes: Sequence<Sequence<Sequence<u32>>>,

    /// The kind of each argument of each predicate.
    pub kinds: Sequence<Sequence<CertKind>>,

    /// Which predicates are said to have clauses and no answer.
    pub fails: Sequence<bool>,

    /// The size rows of each predicate, over the columns of its arguments.
    pub rows: SizeRows,

    /// For each clause, the multipliers of each size row of its head's predicate.
    pub row_proofs: Sequence<Sequence<Multipliers>>,

    /// The cubes of each predicate's ground rows.
    pub grounds: Sequence<Sequence<Cube>>,

    /// For each predicate and each list of its component, its parts in the list's measures. Their numbers may be below
    /// 0.
    pub lists: Sequence<Sequence<Sequence<LevelPart>>>,

    /// For each clause, each call of its body and each list, the multipliers for each measure up to the call's place,
    /// and none where the call is to a lower component.
    pub drops: Sequence<Sequence<Sequence<Sequence<Multipliers>>>>,

    /// For each clause, each call of its body and each list, the multipliers that show the bound at the call's place,
    /// and none where the call is to a lower component.
    pub floors: Sequence<Sequence<Sequence<Multipliers>>>,

    /// For each predicate and each list of its component, the cubes of the precondition.
    pub preconditions: Sequence<Sequence<Sequence<Cube>>>,

    /// For each predicate the stuck set of the component that it is the first one of, where there is one.
    pub stuck: Sequence<Option<StuckSet>>,
}

impl Drop for ProveParts {
    fn drop(self) {
        let ProveParts {
            modes: _,
            kinds: _,
            fails: _,
            rows: _,
            row_proofs: _,
            grounds: _,
            lists: _,
            drops: _,
            floors: _,
            preconditions: _,
            stuck: _,
        } = self;
    }
}
