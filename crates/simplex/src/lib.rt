//! Solving of linear rows over naturals by pivots, and the test whether a row holds on rows.
//!
//! `solve` answers a point or multipliers wherever elimination does, and also on many rows on which elimination is
//! blown. `holds` says whether a row holds wherever rows hold, with what shows it, and `implied` says it without, by a
//! basis that is kept from test to test and in numbers of 384 bits, for the many rows of which few are needed.
//! `fails_at` says whether a point shows that a row fails. What points and multipliers are, and when elimination is
//! blown, is defined in linear_rows. The crate depends on `tableaux`, `exact128`, `exact384`, `linear_rows` and
//! `fourier`.
#![tactic(auto)]

mod basis;
mod cone;
mod held;
mod implication;
mod integers;
mod pricing;
mod showing;
mod solving;
mod systems;
mod testing;
mod wide_multipliers;
mod wide_point;

pub use basis::Basis;
pub use held::Held;
pub use implication::Implied;
pub use showing::fails_at;
pub use solving::solve;
pub use testing::{holds, implied};
