//! Rows of which none follows from the others.
//!
//! `tested` says whether rows imply a row: by one row that shows it, by the origin, or else by `simplex`. `projected`
//! eliminates the last columns by `fourier` and leaves an irredundant part of the rows. It is chosen by hints: a point
//! inside, points at which single rows fail, and the basis of the last test. `push_zeros` and its like lay out the rows
//! of larger systems. The crate depends on `exact128`, `exact384`, `rational128`, `linear_rows`, `sparse_rows`,
//! `fourier`, `simplex` and `termination_model`.
#![tactic(auto)]

mod appending;
mod at_once;
mod beside;
mod hints;
mod inserting;
mod mark;
mod multiple;
mod points;
mod projecting;
mod shooting;
mod sweeping;
mod undominated;

pub use appending::{opposite_of, push_all, push_alone, push_opposite, push_zeros};
pub use at_once::{tested, tested_at};
pub use points::{between, copied_if_known, point_of_head};
pub use projecting::projected;
