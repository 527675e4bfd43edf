//! Tokens of program texts: each is the longest text of a token form at its place.
//!
//! Names, variables, integers, quoted items, marks and the end of a clause, with layout and comments between them.
//! Stands on
//! `std` alone.
#![tactic(auto)]

mod bytes;
mod characters;
mod decoding;
mod fault;
mod integers;
mod items;
mod layout;
mod lexer;
mod numbers;
mod piece;
mod quoting;
mod token;

pub use decoding::{decode, items_are_decoded};
pub use fault::{LexFault, LexKind};
pub use lexer::{Lexer, longest_match};
pub use quoting::{is_empty_list, quote, quoted_names_are_read_back};
pub use token::{Token, TokenKind};
