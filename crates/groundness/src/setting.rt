//! What a search for ground rows reads.

use crate::clause_lists::ClauseLists;
use call_components::Components;
use cti_terms::Program;

/// A program with its components, a norm, and lists that are made once for the searches of all components.
pub struct Setting<'a, N> {
    pub program: &'a Program,
    pub comps: &'a Components,
    pub norm: &'a N,
    /// For each predicate the clauses that have it in their heads.
    pub heads: &'a ClauseLists,
    /// For each predicate the clauses that have it in their bodies.
    pub users: &'a ClauseLists,
}

impl<N> Drop for Setting<'_, N> {
    fn drop(self) {
        let Setting {
            program: _,
            comps: _,
            norm: _,
            heads: _,
            users: _,
        } = self;
    }
}
