//! The place of a transition in a list.

use linear_rows::Numbers;
use sequences::Sequence;

/// What shows at which mapping of a list a transition falls.
pub struct Place {
    /// For each mapping up to the place one multiplier for each row of the transition: they show that the level does
    /// not rise, and at the place that it falls by 1 at least.
    pub multipliers: Sequence<Numbers>,

    /// The multipliers that show that at the place the level of the head is at least 0.
    pub floor: Numbers,
}

impl Drop for Place {
    fn drop(self) {
        let Place {
            multipliers: _,
            floor: _,
        } = self;
    }
}
