//! What a search at a set of positions finds.

use crate::mapping::Mapping;

/// What a search for a mapping at a set of positions finds.
#[derive(Drop)]
pub enum Answer {
    /// A decreasing mapping whose support is part of the set.
    Mapping(Mapping),
    /// There is no such mapping.
    Refuted,
    /// Nothing: the set's system is blown.
    Blown,
}
