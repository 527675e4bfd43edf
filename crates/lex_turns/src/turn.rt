//! Turns of the search for a list that descends.

use level_systems::{Measure, OwnCall, Position};
use linear_rows::Numbers;
use sequences::Sequence;

/// Where a turn is made: the positions at which coefficients may be positive, and the calls that remain.
#[derive(Drop)]
pub(crate) struct Round<'a> {
    pub(crate) at: &'a [Position],
    pub(crate) rest: &'a [&'a OwnCall],
    pub(crate) first: bool,
}

/// A mapping that rises at none of the calls that remain: its parts, which of the calls fall, and the multipliers that
/// show that, call by call.
#[derive(Drop)]
pub(crate) struct Made {
    pub(crate) measures: Sequence<Measure>,
    pub(crate) falls: Sequence<bool>,
    pub(crate) values: Numbers,
}

/// What comes of a turn.
#[derive(Drop)]
pub(crate) enum Step {
    /// A mapping.
    Made(Made),
    /// No mapping at these positions falls at one of the calls that remain and rises at none.
    Refuted,
    /// Nothing: the turn's system is blown.
    Blown,
}
