//! The clauses of each component of a program.
//!
//! A component's clauses are those of its members, in program order. `own_clauses` lists them for all components in one
//! walk over the program, so that what goes through one component after another takes the time of the program.
//!
//! Depends on `call_components`, and on `termination_model` for the words.
#![tactic(auto)]

mod clause_lists;
mod component;

pub use clause_lists::own_clauses;
pub use component::ComponentClauses;
