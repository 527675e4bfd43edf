//! What a search is over.

use crate::position::Position;
use number_turns::Transition;

/// The members, their positions and their transitions.
#[derive(Clone, Copy)]
pub(crate) struct System<'a> {
    pub(crate) members: &'a [u32],
    pub(crate) positions: &'a [Position],
    pub(crate) transitions: &'a [Transition],
}
