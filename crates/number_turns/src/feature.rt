//! Numbers of mappings.

/// A number of a mapping: of a member the offset, which is number 0, or that of a column, counted from 1.
#[derive(Clone, Copy)]
pub struct Feature {
    pub member: u32,
    pub number: u32,
}
