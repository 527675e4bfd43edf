//! Tableaux of linear rows over naturals, and what their pivots find.
//!
//! `found` answers a point of rows or multipliers that refute them, each tested, or nothing. `is_point` tests a point,
//! and `most_pivots` says how many pivots a search may make. The crate depends on `exact128` and
//! `linear_rows`, which has the type of what is found.
#![tactic(auto)]

mod divisors;
mod finding;
mod tableau;

pub use finding::{found, is_point, most_pivots};
