//! Refutations of components.

use crate::pair_point::PairPoint;
use sequences::Sequence;

/// A refutation: points of pairs of a component, ascending by clause and then by call.
#[derive(Drop)]
pub struct Refutation {
    pub points: Sequence<PairPoint>,
}
