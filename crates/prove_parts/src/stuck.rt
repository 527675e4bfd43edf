//! Stuck sets: pairs of clauses and calls that show that no list of mappings descends.

use linear_rows::Point;
use sequences::Sequence;

/// A pair of a clause and one of its calls, both counted from 1, with values of the clause's variables there: three for
/// each variable, its size and its parts above and below 0.
///
/// The `t` of the point may be 0, and it then stands for a direction.
#[derive(Drop)]
pub struct GroupPoint {
    pub clause: u32,
    pub call: u32,
    pub point: Point,
}

/// The group of a pair of a stuck set.
pub struct StuckGroup {
    pub clause: u32,
    pub call: u32,
    /// Points of pairs of the set, ascending by clause and then by call.
    pub points: Sequence<GroupPoint>,
    /// Values at which the level of the pair's head counts once more.
    pub floor: Option<Point>,
}

impl Drop for StuckGroup {
    fn drop(self) {
        let StuckGroup {
            clause: _,
            call: _,
            points: _,
            floor: _,
        } = self;
    }
}

/// A stuck set: the groups of its pairs, ascending by clause and then by call.
#[derive(Drop)]
pub struct StuckSet {
    pub groups: Sequence<StuckGroup>,
}
