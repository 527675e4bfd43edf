//! What a text shows about a mistake at a place of it: the usual mistakes of people who come from larger Prolog
//! systems.
//!
//! Each call answers nothing where the text does not surely show the mistake. Places are tokens of `prolog_tokens`,
//! which are looked for by `token_search`, and the sentences are those of `mistake_sentences`. It depends on these
//! three.
#![tactic(auto)]

mod byte_mistakes;
mod clause_heads;
mod comment_signs;
mod counting;
mod edit_mistakes;
mod file_queries;
mod foreign_operators;
mod gap_mistakes;
mod goal_look;
mod goal_mistakes;
mod infix_operators;
mod programs;
mod term_starts;

pub use byte_mistakes::byte_mistake;
pub use clause_heads::head_mistake;
pub use comment_signs::percent_mistake;
pub use counting::{argument_mistake, variable_mistake};
pub use edit_mistakes::edit_mistake;
pub use file_queries::query_in_file;
pub use gap_mistakes::{gap_mistake, is_closed_later};
pub use goal_mistakes::goal_mistake;
pub use programs::{is_certificate, program_mistake};
pub use term_starts::{start_mistake, term_mistake};
