//! Argument positions.

use cti_terms::PredId;

/// An argument of a predicate, counted from 0.
#[derive(Clone, Copy)]
pub struct Position {
    pub pred: PredId,
    pub argument: u32,
}
