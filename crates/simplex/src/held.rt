//! What the test of a row shows.

use linear_rows::{Multipliers, Point};

/// Whether a row holds on rows.
#[derive(Drop)]
pub enum Held {
    /// The row holds, as these multipliers show.
    Yes(Multipliers),
    /// The row fails at this point of the rows.
    No(Point),
    /// The test is blown: a number of it does not fit, or more than 4,096 rows are left in it.
    Blown,
}
