//! Groups of points of transitions.

use linear_rows::Point;
use sequences::Sequence;

/// A point of the transition at a place of a list. Its `t` may be 0, and it then stands for a direction.
#[derive(Drop)]
pub struct PlacedPoint {
    pub place: u32,
    pub point: Point,
}

/// The group of a transition of a set: points of transitions of the set, its own one among them, and perhaps a floor,
/// which is a point of its own transition.
pub struct PointGroup {
    pub points: Sequence<PlacedPoint>,
    pub floor: Option<Point>,
}

impl Drop for PointGroup {
    fn drop(self) {
        let PointGroup {
            points: _,
            floor: _,
        } = self;
    }
}
