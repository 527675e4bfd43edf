//! Looking for tokens and short texts in a text, from its beginning or around a place.
//!
//! `TokenReader` gives tokens with their texts to what looks at them, and `Gap` is a place with what stands on both
//! sides of it. It depends on `prolog_tokens`.
#![tactic(auto)]

mod gap;
mod searching;
mod token_reader;

pub use gap::{
    Bracket, Gap, first_name, first_symbols, is_layout, is_symbol, is_word_byte, last_name,
    last_symbols, last_word, last_word_bytes, variable_at,
};
pub use searching::{after_last, before_byte, beginning_among, has_part, may_declare, value_of};
pub use token_reader::{Look, TextToken, TokenReader, shown_name};
