//! Size rows of predicates, with their proofs.

use linear_rows::{Multipliers, Rows};
use sequences::Sequence;

/// The size rows of each predicate, by its number.
pub type SizeRows = Sequence<Rows>;

/// The size rows of each predicate, and for each clause the proofs of its head's rows.
///
/// A row says that its constant and the products of its coefficients with the sizes of the arguments sum to at least 0.
/// The proofs of a clause go by the rows of its head.
pub struct Sizes {
    pub rows: SizeRows,
    pub proofs: Sequence<Sequence<Multipliers>>,
}

impl Drop for Sizes {
    fn drop(self) {
        let Sizes { rows: _, proofs: _ } = self;
    }
}
