//! The text of what a run found: terms as they are spelled, a line for each answer, and how the search ended.
//!
//! A term may be deep, and a list long: what is left to be written stands on a stack. Of a run no more than one answer
//! is kept, beside the text. It depends on `cti_terms` for terms, on `ld_resolver` for runs and their answers, on
//! `bumpalo` for what a run keeps, on `prolog_tokens` for the spelling of names, and on `itoa`.
#![tactic(auto)]

mod part;
mod run_lines;
mod running;
mod spelling;

pub use run_lines::run_text;
pub use running::{TextOfRun, text_of_run};
