//! Elimination of a variable from linear rows, and solving of rows over naturals.
//!
//! Both calls compute what linear_rows defines, in numbers of at most 127 bits, or say at which step a number was too
//! large or rows were too many. The crate depends on `exact128`, `rational128`, `linear_rows` and `sparse_rows`.
//!
//! Source: Fourier-Motzkin elimination, as in Schrijver 1986.
#![tactic(auto)]

mod bounding;
mod checking;
mod column;
mod crossing;
mod eliminating;
mod eliminating_all;
mod equations;
mod fault;
mod history;
mod scaling;
mod sequence;
mod solving;
mod starting;
mod stepping;
mod valuing;

pub use eliminating::eliminate;
pub use eliminating_all::eliminate_all;
pub use fault::ElimFault;
pub use linear_rows::{Point, Solved};
pub use solving::{solve, solve_briefly};
