//! Programs that examples read from texts.
#![tactic(auto)]

mod sample;

pub use sample::{Sample, program_of};
