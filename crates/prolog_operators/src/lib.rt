//! The operators in force while a text is read, which the text may change.
//!
//! Each name has at most one infix and one prefix meaning; what the table is and how one meaning is set stand in
//! `specs/Table.antt`. Depends on `cti_terms` for names, `prolog_grammar` for what an operator is, `prolog_tokens` for
//! a lemma, and `thiserror`.
#![tactic(auto)]

mod fault;
mod kind;
mod limits;
mod operators;

pub use fault::OpFault;
pub use kind::OpKind;
pub use limits::MOST_PRIORITY;
pub use operators::{Infix, Ops, Prefix, priority_in};
