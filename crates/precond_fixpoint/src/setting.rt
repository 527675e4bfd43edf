//! What a search for preconditions reads.

use bool_diagrams::Diagram;
use call_components::Components;
use cti_terms::{PredId, Program};
use groundness::ClauseLists;
use number_tests::LevelPart;
use sequences::Sequence;

/// A program with what stays the same while the preconditions of its predicates are searched for, one component after
/// the other.
pub struct Setting<'a, N> {
    pub program: &'a Program,
    pub comps: &'a Components,
    pub norm: &'a N,
    /// For each predicate one more than the number of its component, as `component_ranks` gives them.
    pub ranks: &'a [u32],
    /// For each predicate the clauses that have it in their heads.
    pub heads: &'a ClauseLists,
    /// For each predicate the clauses that have it in their bodies.
    pub users: &'a ClauseLists,
    /// For each predicate its ground rows.
    pub grounds: &'a [Diagram],
    /// For each predicate its part in each mapping of its component. It may be empty for
    /// components that are not searched for.
    pub levels: &'a [Sequence<LevelPart>],
}

impl<N> Drop for Setting<'_, N> {
    fn drop(self) {
        let Setting {
            program: _,
            comps: _,
            norm: _,
            ranks: _,
            heads: _,
            users: _,
            grounds: _,
            levels: _,
        } = self;
    }
}

/// A component whose preconditions are searched for, with what is allowed of the predicates that it calls.
#[derive(Clone, Copy)]
pub(crate) struct Component<'a> {
    pub(crate) rank: u32,
    pub(crate) members: &'a [PredId],
    /// How many level mappings each member has a part in.
    pub(crate) mappings: usize,
    /// For each predicate what is allowed of it. What members have here does not matter.
    pub(crate) allowed: &'a [Diagram],
}
