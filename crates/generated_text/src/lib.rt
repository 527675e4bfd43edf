//! The texts that `gen` makes are programs: each is read without a fault, and its clauses are a program.
//!
//! The law is a function that does nothing, and whose clause is proved.
#![tactic(auto)]

pub mod laws;
