//! How much a text may hold.

/// The most bytes of a text.
pub const MOST_BYTES: usize = 1_048_576;
