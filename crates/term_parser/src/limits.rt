//! How much may be open, and how deep a term may be.

/// The most openers under which an operand may begin, and one more than the greatest depth of a term that an infix
/// operator takes as its left side.
pub const MOST_OPENERS: u32 = 1_000;

/// The highest priority of an argument and of a list's element: below that of the comma.
pub const MOST_ARGUMENT: u32 = 999;
