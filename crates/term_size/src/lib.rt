//! Sizes of terms: what a norm is, and two of them: *term size*, which counts the names that have arguments, and *list
//! size*, which counts the cells of a list.
//!
//! A norm gives each term a natural number, and says which terms are rigid: their size is the same in every instance.
//! Code that is given some norm rests on the laws that stand in `specs/Norm.antt`.
//!
//! Depends on `cti_terms`.
#![tactic(auto)]

mod any_norm;
mod counting;
pub mod laws;
mod list_size;
mod norm;
mod size_expr;
mod term_size;
mod var_set;

pub use any_norm::{AnyNorm, NormName};
pub use list_size::ListSize;
pub use norm::Norm;
pub use size_expr::{Coefficients, SizeExpr};
pub use term_size::TermSize;
pub use var_set::{SET_VARIABLES, VarSet};
