//! Whether rows imply a row.

use linear_rows::Point;

/// Whether rows imply a row.
#[derive(Drop)]
pub enum Implied {
    /// The rows imply the row: it holds wherever they hold.
    Yes,
    /// The rows do not imply the row: somewhere they hold and it fails, most often at this point.
    No(Point),
    /// Nothing is proved; they most likely hold near this point, and it fails there.
    Unsure(Point),
    /// Nothing is known.
    Open,
}
