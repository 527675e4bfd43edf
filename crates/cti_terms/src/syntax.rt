//! Terms of a logic program.

use crate::naming::Name;

/// A term: a variable by its number, an integer, or a name with arguments.
///
/// An atom of the language, as `a` or `[]`, is a `Fun` without arguments.
/// Contracts speak of the plain tree that a term spells.
///
/// Source: abstract terms of ISO/IEC 13211-1:1995, without floats.
#[derive(Drop)]
pub enum Term {
    /// A variable, by its number in the clause or goal that it stands in.
    Var(u32),

    /// An integer.
    Int(i128),

    /// A name with its arguments, in order.
    Fun(Name, Vec<Term>),
}
