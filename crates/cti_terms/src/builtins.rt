//! Built-in predicates, and the names of arithmetic operations.

use crate::naming::Name;

/// What a built-in predicate does with its two arguments: it gives the first the value of the second, or compares the
/// values of both.
#[derive(Clone, Copy, Debug, PartialEq, Eq)]
pub enum Builtin {
    /// `is`
    Is,

    /// `=:=`
    Equal,

    /// `=\=`
    NotEqual,

    /// `<`
    Less,

    /// `=<`
    AtMost,

    /// `>`
    Greater,

    /// `>=`
    AtLeast,
}

/// The names of addition, of subtraction and negation, and of multiplication.
#[derive(Clone, Copy, Debug, PartialEq, Eq)]
pub struct Arith {
    pub plus: Name,
    pub minus: Name,
    pub times: Name,
}
