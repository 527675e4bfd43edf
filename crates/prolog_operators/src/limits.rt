//! The range of priorities.

/// The highest priority of an operator and of a clause.
pub const MOST_PRIORITY: u32 = 1_200;
