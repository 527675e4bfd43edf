//! The words of a command line as a message needs them: the command, its options and its files, or why they are none.
//!
//! The command itself reads them by `command_words`. Here they are read again, so that a message can name the word that
//! is wrong. It depends on `mistake_sentences`, for how a word is shown.
#![tactic(auto)]

mod asked;
mod command;
mod command_option;
mod word_fault;
mod words;

pub use asked::Asked;
pub use command::Command;
pub use command_option::CommandOption;
pub use word_fault::WordFault;
pub use words::Words;
