//! Lists that contracts see as lists of values.
#![tactic(auto)]

mod numbers;
mod sequence;

pub use sequence::Sequence;
