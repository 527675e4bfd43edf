//! The grammar of Prolog terms with operators, and laws on it and on the machine that reads it.
//!
//! There is no code here: each function is a law, whose clause is proved and whose body is empty. `specs/Grammar.antt`
//! is the grammar,
//! `specs/Fault.antt` says which token is unexpected or too deep, and `specs/Reading.antt` what tokens read as. A
//! reader whose code follows `walk` of `specs/Walk.antt` answers by [`one_verdict`] exactly that. Stands on nothing.
#![tactic(auto)]

mod depths;
mod faults;
mod readings;
mod verdicts;

pub use depths::{first_too_deep, readings_within_depth, unexpected_within_depth};
pub use faults::first_unexpected;
pub use readings::{one_reading, readings_are_found};
pub use verdicts::{one_verdict, same_verdicts};
