//! The greatest preconditions of a program's predicates, and their modes, kept from one edit of the program to the
//! next.
//!
//! After an edit a component keeps the sets of its preconditions, as diagrams of the table that goes from one edit to
//! the next, where its clauses are those of an old component, all of them and in their order, where its mappings have
//! the coefficients that they had, where its members have the ground rows that they had, and where what it calls has
//! the ground rows that it had, and the same rows allowed. All others are solved anew. A predicate keeps its modes
//! where the same rows are allowed of it.
//!
//! Depends on `precond_fixpoint`, which solves one component above others, on `component_laws`, whose laws carry
//! preconditions from one program to another, and on `solved_program` for edits and for what stands.
#![tactic(auto)]

mod carrying;
mod comparing;
pub mod laws;
mod modes;
mod preconditions;
mod progress;
mod resolving;
mod sources;
mod standing;

pub use modes::resolve_modes;
pub use preconditions::{Inputs, PreconditionsBefore, SolvedPreconditions};
pub use resolving::resolve_preconditions;
