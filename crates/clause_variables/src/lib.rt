//! The variables of clauses: those of terms in the order in which they occur, and their places in a list of
//! occurrences.
//!
//! `specs/Terms.antt` says which variables a term has, and what it is where they are numbered by their places in an
//! order. Depends on `prolog_reader` for terms with places, and `cti_terms` for the terms that are made of them.
#![tactic(auto)]

mod args;
mod copying;
mod occurrences;
mod order;
mod variables;

pub use args::Args;
pub use copying::copied_args;
pub use occurrences::Occurrences;
pub use order::{firsts, is_among};
pub use variables::{add_variables, term_variables};
