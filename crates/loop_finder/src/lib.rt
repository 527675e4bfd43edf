//! Loops: queries that have derivations of every length.
//!
//! `find` looks for a derivation that comes back to an atom that is more general than one that it passed, and what it
//! finds is proved to go on for ever. Goals are plain copies here, since few of them are kept at a time.
//!
//! Depends on `cti_terms`, on `unifier`, and on `indexmap`, which finds the term that a variable is matched with.
#![tactic(auto)]

mod copying;
mod finding;
pub mod laws;
mod limits;
mod matching;
mod path;
mod room;
mod search;
mod steps;

pub use finding::{Looked, find};
