//! Pairs of clauses and calls with points.

use linear_rows::Point;

/// A pair of a clause and one of its calls, both counted from 1, with a point of the clause's variables.
///
/// The `t` of the point may be 0, and it then stands for a direction. A second point has a `t` of at least 1 there.
#[derive(Drop)]
pub struct PairPoint {
    pub clause: u32,
    pub call: u32,
    pub point: Point,
    pub at: Option<Point>,
}
