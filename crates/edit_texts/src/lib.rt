//! The edits of a text: which edits its clauses are, what they do to a list of clauses, and what they tell of its
//! program.
//!
//! `play` does the edits of a text, one after the other, and gives the lines that they tell; `specs/Edits.antt` says
//! which edits a text has, and what each of them does. `follow` and its like put the program of clauses that come and
//! go in the place of the one before, and `specs/Snapshot.antt` says what that is.
//!
//! Depends on `clause_normal` for the program of clauses, on `kept_clauses` for which of them an edit keeps, and on
//! `kept_program` for what is kept of the program.
#![tactic(auto)]

mod edits;
mod edits_fault;
mod following;
mod playing;

pub use edits_fault::{EditKind, EditsFault};
pub use following::{first_program, follow, follow_with, follow_without};
pub use playing::play;
