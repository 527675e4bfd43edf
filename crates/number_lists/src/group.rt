//! Groups of stuck sets.

use crate::transition_point::TransitionPoint;
use linear_rows::Point;
use sequences::Sequence;

/// The group of a transition of a stuck set: a point of it, points of others of the set, and perhaps a floor, a point
/// of its head alone. What they balance to is defined in `transitions`.
pub struct Group {
    pub first: TransitionPoint,
    pub others: Sequence<TransitionPoint>,
    pub floor: Option<Point>,
}

impl Drop for Group {
    fn drop(self) {
        let Group {
            first: _,
            others: _,
            floor: _,
        } = self;
    }
}
