//! Logic programs: names, terms, clauses and programs, and what it means to run them.
//!
//! The code keeps names and programs. The definitions in `specs/` say what a program does: unification with the occurs
//! check, left-to-right resolution with integer tests and `is`, derivations, and when a goal's derivations are bounded.
//! They speak of plain trees, which contracts see wherever the code holds terms.
//!
//! Depends on `indexmap`, which numbers names and predicates in the order of their first use.
#![tactic(auto)]

mod atom_list;
mod builtins;
mod clauses;
mod derivation;
pub mod laws;
mod limits;
mod listing;
mod naming;
mod predicates;
mod syntax;
mod term_list;

pub use atom_list::{Atom, Atoms};
pub use builtins::{Arith, Builtin};
pub use clauses::Clause;
pub use derivation::Goal;
pub use limits::{
    MOST_ANSWER_DEPTH, MOST_ANSWER_NODES, MOST_ARGUMENTS, MOST_ATOMS, MOST_CLAUSES, MOST_NODES,
    MOST_VARIABLES,
};
pub use listing::Program;
pub use naming::{Name, Names};
pub use predicates::{Pred, PredId};
pub use syntax::Term;
pub use term_list::Terms;
