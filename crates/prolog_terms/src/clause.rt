//! One clause as it stands in a text.

use crate::term::ReadTerm;

/// A clause's term, and how many variables the clause has. Each `_` is a variable of its own.
#[derive(Drop)]
pub struct ReadClause {
    pub term: ReadTerm,
    pub vars: u32,
}
