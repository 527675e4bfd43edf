//! The words of a command line, and what they ask for.
//!
//! Which words are a command is described to `clap`, and what they ask for is a definition over what that crate is
//! proved to make of words. Whatever the words are, `request_in` gives what they ask for, or says that they ask for
//! nothing.
//!
//! Depends on `clap`, and on `term_size` for the names of the norms.
#![tactic(auto)]

mod command_line;
pub mod laws;
mod norms;
mod request;
mod steps;

pub use request::{Origin, Request, RequestFault, request_in, usage_text};
