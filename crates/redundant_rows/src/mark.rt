//! What is known of a row that is to be inserted.

/// What is known of a row that is to be inserted.
#[derive(Clone, Copy, PartialEq, Eq, Debug)]
pub(crate) enum Mark {
    /// Nothing.
    Waiting,
    /// Inserted.
    Kept,
    /// Rows that were inserted imply it.
    Implied,
}
