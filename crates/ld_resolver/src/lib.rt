//! A resolver: runs queries of a logic program within a budget.
//!
//! A run looks at the derivations from a goal in the order of Prolog's search, with the occurs check, and gives the
//! answers, how many derivations it looked at, and whether there are more. What it answers is proved to be what the
//! definitions of `cti_terms` say, which substitute in whole goals. The code binds variables in a store instead,
//! takes bindings back where it chooses another clause, passes over clauses that the first argument rules out, shares
//! the rests of goals, and unifies no pair of variables over and over. The value of an expression is found without
//! recursion, and a run ends where a value does not fit.
//!
//! Depends on `cti_terms`; on `unifier`, which binds variables; on `exact128`, which calculates the values of
//! expressions; on `bumpalo`, which keeps them as terms while a run goes on; and on `indexmap`, which numbers the
//! variables of an answer in the order of first occurrence.
#![tactic(auto)]

mod answer;
mod answer_list;
mod attempts;
mod builtin_atoms;
mod choices;
mod clause_chain;
mod first_argument;
mod first_kind;
pub mod laws;
mod operators;
mod running;
mod search;
mod tails;
mod values;

pub use answer::Answer;
pub use answer_list::Answers;
pub use running::{Ending, Found, Ran, Running, Totals, run};
