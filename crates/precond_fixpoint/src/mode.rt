//! Modes.

use sequences::Sequence;

/// A mode of a predicate: arguments, counted from 1 and in ascending order. A query whose arguments of these numbers
/// are rigid has bounded derivations.
#[derive(Drop)]
pub struct Mode {
    pub args: Sequence<u32>,
}
