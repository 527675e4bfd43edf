//! How large the parts of a program may be.

/// The most arguments that a predicate has.
pub const MOST_ARGUMENTS: u32 = 12;

/// The most variables that a clause has.
pub const MOST_VARIABLES: u32 = 48;

/// The most clauses that a program has: 16,384 of its text, and the one of `=`/2.
pub const MOST_CLAUSES: u32 = 16_385;

/// The most nodes that the terms of a clause have together: two for each byte of the longest text.
pub const MOST_NODES: u32 = 2_097_152;

/// The most atoms that the body of a clause has: two for each byte of the longest text.
pub const MOST_ATOMS: u32 = 2_097_152;

/// The most nodes that the atoms of an answer have together, for it to be reported.
pub const MOST_ANSWER_NODES: u32 = 100_000;

/// The greatest depth of the atoms of an answer, for it to be reported.
pub const MOST_ANSWER_DEPTH: u32 = 4_000;
