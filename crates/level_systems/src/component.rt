//! A component, as a search for its mappings sees it.

use crate::own_call::OwnCall;
use crate::position::Position;
use cti_terms::PredId;

/// A component's members, argument positions and calls of itself.
pub struct Component {
    /// The members, by their numbers.
    pub members: Vec<PredId>,

    /// The members, by their first clauses.
    pub by_clauses: Vec<PredId>,

    /// The positions of the members by their first clauses.
    pub order: Vec<Position>,

    /// The positions of the members by their numbers.
    pub positions: Vec<Position>,

    /// The calls, by clause and call.
    pub calls: Vec<OwnCall>,
}

impl Drop for Component {
    fn drop(self) {
        let Component {
            members: _,
            by_clauses: _,
            order: _,
            positions: _,
            calls: _,
        } = self;
    }
}
