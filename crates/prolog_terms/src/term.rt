//! Terms as they stand in a text.

use cti_terms::Name;

/// What a term is.
#[cycle(read_terms)]
#[derive(Drop)]
pub enum ReadShape {
    /// A variable, by its number in its clause. Variables are numbered from 0 in the order of their first occurrence,
    /// and each `_` is a variable of its own.
    Var(u32),
    /// An integer of absolute value at most 2^127 - 1.
    Int(i128),
    /// A name and its arguments. An atom has none.
    Fun(Name, Vec<ReadTerm>),
}

/// A term and its place, which is the first byte of its first token, counted from 0. A parenthesis around a term is one
/// of its tokens.
#[cycle(read_terms)]
#[derive(Drop)]
pub struct ReadTerm {
    pub at: u32,
    pub shape: ReadShape,
}
