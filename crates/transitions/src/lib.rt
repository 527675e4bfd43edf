//! Transitions of a component: pairs of a clause's head and a call of its body, and lists of mappings that descend over
//! them.
//!
//! A mapping gives each column of a member an unknown whole number. Which numbers descend is asked by templates: rows
//! with unknown numbers that known rows have to prove.
//!
//! Depends on `linear_rows` and `termination_model` for the words.
#![tactic(auto)]

pub mod laws;
