//! What is found of a program's predicates, kept from one edit of it to the next.
//!
//! All that is found of a component depends on its own clauses and on what is found of the predicates that they call.
//! So after an edit a component keeps what was found of it where its clauses are kept ones, all of them, and what they
//! call has come out as it was. All others are solved anew. Nothing rests on what the edit was said to touch: which
//! components keep their part is decided by clauses and by values.
//!
//! `resolve_sizes` finds the size rows of a program after an edit of it. It goes through the new components, callees
//! first, over tables that begin with the old rows and proofs, so a component that is taken over only gets its steps,
//! under the new numbers of its clauses. All others are solved one after another in one state, each in its own time.
//! Terms are not compared: an edit says of each new clause which old clause it is, and components are compared by these
//! numbers. A component without clauses is solved each time.
//!
//! `resolve_grounds` does the same with ground rows, in a table of diagrams that goes from one edit to the next. A
//! program that was not there before is an edit of the empty program.
//!
//! `StandsFor` says when a component stands for an old one, over any value for each predicate, so that it serves other
//! engines too. `stayed_rows` and `Sources::standing` decide it by the size rows that have come out.
//!
//! Depends on `numeric_model` and `groundness`, which solve one component above others, and on `component_laws`, whose
//! laws carry a part from one program to another.
#![tactic(auto)]

mod carrying;
mod comparing;
mod copies;
mod edit;
mod edit_clauses;
mod grounds;
pub mod laws;
mod marking;
mod progress;
mod renumbering;
mod resolving;
mod solved_sizes;
mod standing;
mod taking;

pub use edit::Edit;
pub use edit_clauses::EditClauses;
pub use grounds::{carried_sets, resolve_grounds};
pub use marking::stayed_rows;
pub use resolving::{Sources, resolve_sizes};
pub use solved_sizes::SolvedSizes;
