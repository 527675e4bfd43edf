//! What a table hands out.

/// A set of rows, by its number in the table that gave it.
#[derive(Clone, Copy, PartialEq, Eq)]
pub struct Diagram(pub(crate) u64);
