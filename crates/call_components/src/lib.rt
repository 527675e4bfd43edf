//! The components of a program's calls, callees first.
//!
//! Two predicates are together exactly where each reaches the other by calls, and each component stands after those
//! that it calls.
//!
//! Depends on `cti_terms` alone. What calls and reaching mean is in `specs/Calls.antt`, and what makes a value a
//! program's components in `specs/Partition.antt`.
#![tactic(auto)]

mod calls;
mod marks;
mod members;
mod numbering;
mod partition;
mod pred_list;
mod pred_lists;
mod recursion;
mod search;
mod strong_components;

pub use partition::Components;
pub use strong_components::components;
