//! Exact arithmetic on whole numbers that fit, which are those of absolute value at most 2^127 - 1.
//!
//! Each operation gives the exact number or none, and never wraps. `i128::MIN` fits nowhere, so that
//! each number that fits has a negation that fits. The crate depends on nothing but `std`.
#![tactic(auto)]

mod checked;
mod divisor;
mod natural;
mod wide_sum;

pub use checked::{fits, minus, plus, times};
pub use divisor::{divided, gcd, quotient};
pub use wide_sum::sum_of_products;
