//! Sets of rows of 64 Boolean variables, as reduced and ordered decision diagrams over one set of shared nodes, so that
//! equal sets are one diagram (Bryant 1986).
//!
//! Depends on `lru`, which bounds what a table keeps of its answers.
#![tactic(auto)]

mod connective;
mod cube;
mod diagram;
mod joining;
mod memo;
mod node;
mod paths;
mod quantifying;
mod reading;
mod renaming;
mod table;

pub use cube::{Cell, Cube};
pub use diagram::Diagram;
pub use table::{Table, VARIABLES};
