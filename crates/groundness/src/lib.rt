//! The least groundness of a program: for each predicate the truth rows that its clauses give, as a decision diagram.
//!
//! Where a norm says which terms are rigid, a row in the set of a predicate is a way in which the arguments of an atom
//! can be rigid, or not, once the atom has succeeded.
//!
//! The sets are found by marks: each clause that may still give a row has one. Whoever looks for sets by clauses in
//! another way takes the marks and the lists of clauses from here.
//!
//! `solve` finds the sets of all predicates, and `solve_component` those of one component, in a caller's table of sets.
//!
//! Depends on `termination_model`, which says what the least family is, and on `truth_rows`, whose sets these are.
#![tactic(auto)]

mod clause_lists;
mod clause_rows;
mod grounds;
mod marks;
mod setting;
mod solving;

pub use clause_lists::{ClauseLists, heads, users};
pub use grounds::Grounds;
pub use marks::Marks;
pub use setting::Setting;
pub use solving::{solve, solve_component};
