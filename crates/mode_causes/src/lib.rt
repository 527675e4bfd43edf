//! Which call is to blame for a predicate without a mode, from a certificate that was printed and from its program.
//!
//! `Causes` are what the facts of a certificate say of each predicate, and `View` finds the cause of one: the calls
//! that a refutation names, what was given up, or the call that needs what no query gives it.
//!
//! It depends on `listed_programs` for the program and its places, on `certificate` for the facts, on `cti_terms` and
//! `warnings` for names, and on `sequences`.
#![tactic(auto)]

mod cause;
mod culprit;
mod finding_causes;
mod lacking;
mod rigid_sets;
mod sizing;
mod truths;
mod walk;

pub use cause::{Cause, Causes, Limit};
pub use culprit::Culprit;
pub use finding_causes::{Case, View, Why};
pub use lacking::CallAt;
pub use truths::{argument_set, named_arguments};
