//! Predicates by their names.

use sequences::Sequence;

/// A predicate: the bytes of its name, and how many arguments it has.
#[derive(Drop)]
pub struct PredText {
    pub name: Sequence<u8>,
    pub arity: u32,
}
