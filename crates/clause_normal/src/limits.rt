//! How many clauses a text may make.

/// The most clauses of a text, that of `=`/2 aside.
pub const MOST_TEXT_CLAUSES: usize = 16_384;
