//! Sets of truth rows, moved from one table of diagrams to another.
//!
//! A table keeps every diagram that it gave. So what is still in use moves to a new table from time to time, and the
//! old one is dropped. A set moves as its cubes, which have the same rows.
//!
//! Depends on `bool_diagrams` for tables, and on `truth_rows` for the set that cubes spell.
#![tactic(auto)]

mod moving;

pub use moving::{moved, moved_lists, moved_sets};
