//! The usual mistakes in programs, queries, edits and certificates, each shown as what to do about it.
//!
//! `Mistake` is one of them, with what it shows of the text. Which one a text shows is found by `mistakes` and
//! `certificate_mistakes`.
#![tactic(auto)]

mod byte_sentences;
mod clause_sentences;
mod edit_sentences;
mod fact_sentences;
mod file_sentences;
mod goal_sentences;
mod head_sentences;
mod mistake;
mod mode_numbers;
mod operator_sentences;
mod query_sentences;
mod sentence;
mod shell_word;

pub use byte_sentences::ByteMistake;
pub use clause_sentences::ClauseMistake;
pub use edit_sentences::EditMistake;
pub use fact_sentences::FactMistake;
pub use file_sentences::FileMistake;
pub use goal_sentences::GoalMistake;
pub use head_sentences::HeadMistake;
pub use mistake::Mistake;
pub use mode_numbers::{MOST_ARGUMENTS, ModeNumbers};
pub use operator_sentences::OperatorMistake;
pub use query_sentences::QueryMistake;
pub use sentence::{Sentence, Shown};
pub use shell_word::ShellWord;
