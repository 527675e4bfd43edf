//! Predicates.

use crate::naming::Name;

/// A predicate of a program, by its number. Numbers count from 0, in the order of first occurrence.
#[derive(Clone, Copy, Debug, PartialEq, Eq, Hash)]
pub struct PredId(pub u32);

/// A predicate: a name with a number of arguments.
#[derive(Clone, Copy, Debug, PartialEq, Eq, Hash)]
pub struct Pred {
    pub name: Name,
    pub arity: u32,
}
