//! Why predicates have no mode: notes for people, made from a certificate that was printed and from the text of its
//! program.
//!
//! Where a certificate is not valid, another note names the fact that was expected.
//!
//! `call_notes` reads the texts of both again. Nothing that is answered depends on what it says, and it says no more
//! than the facts do: the calls that a refutation names, what was given up, which call needs what no query gives it. It
//! depends on `mode_causes` for the causes, on `listed_programs` for the program and its places, on `certificate` for
//! the facts, on `prolog_reader`, `clause_normal` and `cti_terms` for texts, on `messages` for the form, on
//! `mistake_sentences` for the names of files in commands, on `warnings` for predicates as they are shown, on
//! `token_search` for variables, and on `thiserror`.
#![tactic(auto)]

mod expecting;
mod hints;
mod lacked;
mod lacks_shown;
mod lists;
mod note;
mod noting;
mod reading;
mod showing;
mod telling;
mod wanted;

pub use note::Note;
pub use telling::{call_notes, check_note, norm_note, program_notes};
