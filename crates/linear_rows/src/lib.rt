//! Linear rows over naturals: proof by multipliers, and the words of elimination and solving.
//!
//! A row says that its constant and the products of its coefficients with natural numbers sum to at least 0. No call
//! here searches: `combine` and `proves` compute with given multipliers. What it means for rows to hold, to prove, to
//! be eliminated and to be solved is defined in `specs/`, over plain lists of whole numbers without bound, and the laws
//! of these words are functions without a body. The crate depends on `exact128` and `sequences`.
#![tactic(auto)]

mod columns;
mod combining;
pub mod laws;
mod multipliers;
mod numbers;
mod point;
mod proving;
mod row;
mod solved;
mod system;

pub use columns::number;
pub use combining::{RowFault, combine};
pub use multipliers::{Multipliers, Proof, copied_multipliers};
pub use numbers::{Numbers, are_natural, zeros};
pub use point::Point;
pub use proving::proves;
pub use row::{Row, RowList, Rows};
pub use solved::Solved;
pub use system::System;
