//! Tokens as the parser takes them.

use crate::natural::Natural;
use cti_terms::Name;

/// The names that the syntax itself makes terms of: `,` and `[]` and `{}` and `.`.
#[derive(Clone, Copy, PartialEq, Eq)]
pub struct Known {
    pub comma: Name,
    pub nil: Name,
    pub curly: Name,
    pub cell: Name,
}

/// A token as the parser takes it, with the place of its first byte where a term may begin there.
pub enum Symbol {
    /// A variable, by its number in the clause.
    Var { at: u32, number: u32 },
    /// An integer.
    Int { at: u32, value: Natural },
    /// An integer directly after the unquoted name `-`.
    Joined { at: u32, value: Natural },
    /// A text, as its character codes.
    Text { at: u32, codes: Vec<char> },
    /// A name, quoted or not.
    Name { at: u32, name: Name },
    /// A parenthesis with layout, a comment or nothing before it.
    Paren { at: u32 },
    /// A parenthesis directly after the token before it.
    Touching { at: u32 },
    ParenEnd,
    Bracket { at: u32 },
    BracketEnd,
    Brace { at: u32 },
    BraceEnd,
    Comma,
    Bar,
    End,
}

impl Drop for Symbol {
    fn drop(self) {
        match self {
            Symbol::Var { at: _, number: _ } => {}
            Symbol::Int { at: _, value: _ } => {}
            Symbol::Joined { at: _, value: _ } => {}
            Symbol::Text { at: _, codes: _ } => {}
            Symbol::Name { at: _, name: _ } => {}
            Symbol::Paren { at: _ } => {}
            Symbol::Touching { at: _ } => {}
            Symbol::ParenEnd => {}
            Symbol::Bracket { at: _ } => {}
            Symbol::BracketEnd => {}
            Symbol::Brace { at: _ } => {}
            Symbol::BraceEnd => {}
            Symbol::Comma => {}
            Symbol::Bar => {}
            Symbol::End => {}
        }
    }
}
