//! The greatest preconditions of a program's predicates, and the modes that they allow.
//!
//! A component has a level mapping for each of its preconditions. From all rows that are true at a mapping's positive
//! coefficients, those are removed from which a clause reaches a call outside its set, until the rule holds; what is
//! left is the greatest precondition. Its rows that stay in it where further arguments become rigid are allowed for
//! callers.
//!
//! Depends on `truth_rows` and `groundness` for these sets, and on `termination_model` for what ends.
#![tactic(auto)]

mod breaking;
mod columns;
mod covering;
mod families;
mod greatest;
pub mod laws;
mod mode;
mod modes;
mod preconditions;
mod ranks;
mod removing;
mod setting;
mod solving;

pub use mode::Mode;
pub use modes::{all_modes, minimal_modes};
pub use preconditions::Preconditions;
pub use ranks::component_ranks;
pub use setting::Setting;
pub use solving::{solve_component, solve_levels};
