//! Exact fractions of whole numbers, in lowest terms.
//!
//! A fraction's numerator and denominator have absolute values of at most 2^127 - 1. An operation gives the exact
//! fraction, or `Wide` where a number that it forms does not fit. No call takes memory. The crate depends on
//! `exact128`.
#![tactic(auto)]

mod ratio;

pub use ratio::{Ratio, Wide};
