//! Unification of terms of a program, in a store of bindings.
//!
//! A term stands where the program has it, with a base by which its variables are raised, so nothing is copied.
//! Bindings are taken back in the order in which they were made. What is unified is proved to be what the definitions
//! of `cti_terms` say, which substitute in whole equations. No pair of variables is unified over and over.
//!
//! Depends on `cti_terms`, and on `indexmap`, which finds the pairs of variables that were unified.
#![tactic(auto)]

pub mod bindings;
pub mod counter;
pub mod equal_pairs;
pub mod heads;
pub mod occurs_check;
pub mod raised_term;
pub mod slot;
pub mod slots;
pub mod unification;
pub mod visited;
