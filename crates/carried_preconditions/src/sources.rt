//! What preconditions after an edit are made from.

use crate::preconditions::{Inputs, PreconditionsBefore};
use groundness::ClauseLists;
use solved_program::EditClauses;

/// An edit with what belongs to both of its programs, and lists that are made once for all components.
pub(crate) struct PreconditionSources<'a, N> {
    pub(crate) clauses: &'a EditClauses<'a>,
    pub(crate) norm: &'a N,
    /// For each predicate after the edit one more than the number of its component.
    pub(crate) ranks: &'a [u32],
    /// For each predicate after the edit the clauses that have it in their heads.
    pub(crate) heads: &'a ClauseLists,
    /// For each predicate after the edit the clauses that have it in their bodies.
    pub(crate) users: &'a ClauseLists,
    /// Ground rows and mappings of the new program.
    pub(crate) inputs: &'a Inputs<'a>,
    /// Ground rows and mappings of the old program, with its preconditions.
    pub(crate) before: &'a PreconditionsBefore<'a>,
}

impl<N> Drop for PreconditionSources<'_, N> {
    fn drop(self) {
        let PreconditionSources {
            clauses: _,
            norm: _,
            ranks: _,
            heads: _,
            users: _,
            inputs: _,
            before: _,
        } = self;
    }
}
