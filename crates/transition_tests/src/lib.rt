//! Tests of numbers over transitions: whether multipliers show that a list of measures drops, and whether groups of
//! points are a stuck set, over which no list descends.
//!
//! Measures with numbers give whole numbers to the columns of atoms. A size row of a clause's head, the fall of a
//! measure at a call and its level on the head are shown by multipliers of the rows that are known there. That no list
//! descends is shown by a stuck set: for each of some transitions a group of points. Those who find such numbers and
//! those who check them run the same tests. What the numbers have to show is defined in `specs/`, in the words of
//! `transitions`; that it shows what claims need are laws. Depends on `number_turns`, which holds transitions, on
//! `number_columns` for rows over columns, and on `number_tests` for the test of multipliers.
#![tactic(auto)]

mod dropping;
mod group;
pub mod laws;
mod points;
mod sizes;
mod stuck;
mod sums;
mod targets;
mod values;

pub use dropping::drops_at;
pub use group::{PlacedPoint, PointGroup};
pub use sizes::size_row_shown;
pub use stuck::is_stuck;
