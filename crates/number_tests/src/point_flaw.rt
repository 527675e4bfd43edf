//! Points of refutations that fail their test.

use crate::flaw::Flaw;

/// The point of a refutation at which some row does not hold, and why.
///
/// `place` counts the points from 0, and a second point of a pair right after the first one.
#[derive(Clone, Copy, PartialEq, Eq, Debug)]
pub struct PointFlaw {
    pub place: u64,
    pub flaw: Flaw,
}
