//! Argument positions with their columns.

/// An argument position of a member, and its columns `first`, from 0 on, up to `first + count` among those of the
/// member.
#[derive(Clone, Copy)]
pub struct Position {
    pub member: u32,
    pub first: u32,
    pub count: u32,
}
