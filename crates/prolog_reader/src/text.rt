//! What a text reads as.

use prolog_operators::Ops;
use prolog_terms::ReadClauses;

/// The clauses of a text in its order, and the operators after the last one.
#[derive(Drop)]
pub struct ReadText {
    pub clauses: ReadClauses,
    pub ops: Ops,
}
