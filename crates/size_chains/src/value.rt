//! Values of predicates.

use crate::filled::Filled;

/// The value of a predicate, and what is known of the rows that it lists.
#[derive(Drop)]
pub(crate) struct Value<D> {
    pub(crate) of: D,
    pub(crate) filled: Filled,
}
