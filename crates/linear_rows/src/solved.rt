//! What solving finds.

use crate::multipliers::Multipliers;
use crate::point::Point;

/// What solving finds of rows.
#[derive(Drop)]
pub enum Solved {
    /// A point at which all rows hold.
    Point(Point),
    /// Multipliers with scale 0, which show that the rows hold nowhere.
    Refuted(Multipliers),
}
