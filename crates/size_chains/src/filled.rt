//! What is known of rows.

/// What is known of a predicate's rows.
#[derive(Clone, Copy, PartialEq, Eq)]
pub(crate) enum Filled {
    /// The rows are the one row of constant -1.
    Bottom,
    /// The rows do not contain that row.
    Unknown,
    /// The rows have a point.
    Inhabited,
}
