//! Sentences about bytes that begin no token.

use crate::sentence::Shown;

/// What is wrong with the bytes of a text, shown as what to do about it.
#[derive(Clone, Copy)]
pub enum ByteMistake {
    ByteOrderMark,
    BackQuote,
    NotText,
    Binary,
    Control,
    Typographic,
    Negation,
    Symbol,
    /// A sign of mathematics, and what is written for it.
    Sign(&'static str, &'static str),
}

impl ByteMistake {
    /// The sentence of the mistake, with a `{}` for each thing that `shown` gives.
    pub fn sentence(self) -> &'static str {
        match self {
            Self::ByteOrderMark => "leave out this byte order mark: save the file without it",
            Self::BackQuote => "write double quotes for back quotes: \"a\"",
            Self::NotText => "save the file as UTF-8",
            Self::Binary =>
                "this is not a text file: name the file of a program, and save it as UTF-8",
            Self::Control => "delete this control character",
            Self::Typographic =>
                "write a plain space, quote or dash: this character is none of them",
            Self::Negation =>
                "write `(G,fail ; true)` for `¬G`: modes with it hold for the negation",
            Self::Symbol =>
                "this sign is not an operator here: write it in letters or in plain symbols",
            Self::Sign(..) => "write `{}` for `{}`",
        }
    }

    /// What stands in the places of its sentence, in their order.
    pub fn shown<'a>(self) -> [Shown<'a>; 3] {
        match self {
            Self::Sign(sign, plain) => {
                let (sign, plain): (&'a str, &'a str) = (sign, plain);
                [Shown::Text(plain), Shown::Text(sign), Shown::Nothing]
            }
            _ => [Shown::Nothing; 3],
        }
    }
}
