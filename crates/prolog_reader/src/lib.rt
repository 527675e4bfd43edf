//! Reads program texts and queries into terms with places, by operators that a text may change.
//!
//! A `ClauseReader` feeds the tokens of a clause to the parser of `term_parser`. What tokens read as is the grammar of
//! `prolog_grammar`, and what a text reads as is defined in `specs/Reading.antt`. Depends on `cti_terms` for names,
//! `prolog_operators` for operators, `prolog_tokens` for tokens, `prolog_grammar` for the grammar and its laws, and
//! `thiserror`.
#![tactic(auto)]

mod clause_reading;
mod directives;
mod fault;
pub mod laws;
mod limits;
mod reading;
mod symbols;
mod text;
mod words;

pub use fault::{ReadFault, ReadKind};
pub use limits::MOST_BYTES;
pub use prolog_operators::{MOST_PRIORITY, OpFault, OpKind, Ops};
pub use prolog_terms::{ReadClause, ReadClauses, ReadShape, ReadTerm};
pub use reading::{one_answer, read_query, read_text};
pub use term_parser::MOST_OPENERS;
pub use text::ReadText;
