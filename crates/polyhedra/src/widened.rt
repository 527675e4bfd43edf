//! A value with some rows left out.

use linear_rows::Multipliers;
use sequences::Sequence;

/// A value with some rows left out: whether one of these is known to fail, whether the test of one was blown, and
/// multipliers that show each row kept.
#[derive(Drop)]
pub struct Widened<D> {
    pub value: D,
    pub failed: bool,
    pub weak: bool,
    pub by: Sequence<Multipliers>,
}
