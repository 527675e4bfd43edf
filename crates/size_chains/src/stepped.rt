//! What a step does.

use crate::filled::Filled;
use linear_rows::Multipliers;
use sequences::Sequence;
use termination_model::How;

/// What a step does to its head's value: a new value, or none where the rows stay.
#[derive(Drop)]
pub(crate) struct Stepped<D> {
    pub(crate) how: How,
    pub(crate) weak: bool,
    pub(crate) next: Option<D>,
    pub(crate) filled: Filled,
    /// Proofs of the rows, where they stay.
    pub(crate) by: Sequence<Multipliers>,
}
