//! Edit sessions: a program whose clauses come and go, with its certificate.
//!
//! After each edit the certificate of a session is valid and exact for the program of the session's clauses, by term
//! size. `specs/Session.antt` says what that is.
//!
//! An edit solves again only the components that it reaches: `kept_program` keeps what was found of the others.
//!
//! Depends on `edit_texts` for the program of clauses that come and go, on `clause_normal` for their faults, and on
//! `kept_program` for what is kept of the program.
#![tactic(auto)]

mod counting;
mod edit;
mod extending;
pub mod laws;
mod session;

pub use edit::{EditClause, EditFault};
pub use session::Session;
