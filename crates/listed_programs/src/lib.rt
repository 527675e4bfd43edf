//! Programs and certificates as notes look at them.
//!
//! `Listed` is a program with the table of its predicates, calls and components, and with the places of its clauses in
//! its text; `FactRuns` says where the facts of each predicate stand. It depends on `call_components` and `cti_terms`
//! for programs, on `certificate` for facts, and on `prolog_reader` and `warnings` for clauses with places.
#![tactic(auto)]

mod fact_runs;
mod listed;
mod places;
mod table;

pub use fact_runs::{FactRuns, Run};
pub use listed::{IntegerGoal, Listed};
pub use places::Places;
pub use table::{ClauseRow, ProgramTable, number_of};
