//! The system of some clause, up to some atom of its body.

use linear_rows::System;

/// The system of a clause up to an atom, with the clause's number from 1, or 0 where there is no clause yet.
#[derive(Drop)]
pub(crate) struct Reached {
    pub(crate) clause: u32,
    pub(crate) atoms: usize,
    pub(crate) system: System,
}
