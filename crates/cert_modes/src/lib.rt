//! The test of the modes of a certificate.
//!
//! The ground rows have to be closed under the clauses of the program, the preconditions have to keep their rule for
//! each mapping, and each printed mode has to be admitted. What that means is `ModesHold` of `specs/Modes.antt`. The
//! numbers of sizes and mappings are not asked here.
//!
//! Depends on `truth_rows`, which tests sets of truth rows, and on `cert_structure`, whose parts are tested.
#![tactic(auto)]

mod admitting;
mod checking;
mod choosing;
mod closing;
mod covering;
mod fault;
pub mod laws;
mod marks;
mod ranks;
mod rules;
mod sets;

pub use checking::mode_fault;
pub use fault::{ModeFault, ModeReason};
