//! Warnings about programs and queries that are read and answered: calls of predicates that have no clause, variables
//! that occur only once, and expressions that never have a value.
//!
//! The text that was loaded is read again, and nothing that is answered depends on it. It depends on `prolog_reader`
//! for clauses with places, on `cti_terms` and `prolog_tokens` for names, on `messages` for the form, on `mistakes`
//! for certificates, on `token_search` for variables, on `indexmap` and on `thiserror`.
#![tactic(auto)]

mod calls;
mod expressions;
mod finding;
mod findings;
mod libraries;
mod library_names;
mod parts;
mod sentence;
mod singletons;
mod telling;
mod warning;

pub use parts::{body_of, head_of, indicator_of, text_of};
pub use telling::{program_warnings, query_warnings, warn};
