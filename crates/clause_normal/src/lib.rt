//! The normal form of a text's clauses: a program of pure clauses, or the first fault.
//!
//! A body is a conjunction of calls, and each disjunction becomes a predicate of its own, whose clauses are its
//! branches. `specs/NormalForm.antt` says which program that is and which fault comes first, and `specs/Query.antt` the
//! same of queries. `specs/Definite.antt` says it of clauses without disjunctions, one at a time, so that they may come
//! and go. Depends on `clause_variables` for the variables of clauses, `cti_terms` for programs, `prolog_reader` for
//! clauses with places, and `thiserror`.
#![tactic(auto)]

mod body;
mod clauses;
mod definite;
mod fault;
mod forms;
mod goal;
pub mod laws;
mod level;
mod limits;
mod making;
mod numbering;
mod operations;
mod outline;
mod outlining;
mod part;
mod query;
mod rule;
mod text_program;
mod words;

pub use definite::{check_added, definite_program};
pub use fault::{NormFault, NormKind};
pub use forms::is_silent_goal;
pub use limits::MOST_TEXT_CLAUSES;
pub use query::normal_query;
pub use text_program::normal;
