//! Points of transitions.

use linear_rows::Point;

/// A point at which the rows of a transition hold. Transitions are counted from 0.
pub struct TransitionPoint {
    pub transition: usize,
    pub point: Point,
}

impl Drop for TransitionPoint {
    fn drop(self) {
        let TransitionPoint {
            transition: _,
            point: _,
        } = self;
    }
}
