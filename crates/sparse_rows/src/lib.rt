//! Rows as lists of their numbers that are not 0, and lists of such rows.
//!
//! Each is seen as the plain list of all its numbers, which have 128 bits; `fits` says whether they have at most 127. A
//! list finds its rows by marks. Rows that are kept are cleaned as linear_rows defines: `add` divides them, and leaves
//! out those that say nothing new. The crate depends on `exact128` and `linear_rows`.
#![tactic(auto)]

mod cleaning;
mod comparing;
mod converting;
mod line;
mod lines;
mod marks;
mod part;
mod sign;

pub use cleaning::{MOST_ROWS, add, add_without};
pub use converting::{lines_of, rows_of};
pub use line::Line;
pub use lines::Lines;
pub use sign::{is_negative, is_positive, negated};
