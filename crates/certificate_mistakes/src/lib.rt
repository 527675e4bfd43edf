//! What the line of a certificate shows about a mistake in it.
//!
//! Each call answers nothing where the line does not surely show the mistake. The sentences are those of
//! `mistake_sentences`. It depends on `token_search`, for the tokens of a line.
#![tactic(auto)]

mod certificate_lines;
mod fact_forms;
mod fact_look;
mod standing;

pub use certificate_lines::{beginning_mistake, line_mistake, mode_mistake};
pub use standing::standing_mistake;
