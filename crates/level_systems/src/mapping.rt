//! Mappings of components.

use crate::fall::Fall;
use crate::measure::Measure;
use sequences::Sequence;

/// A mapping of a component, with what shows that it decreases.
pub struct Mapping {
    /// One for each member, by the numbers of the predicates.
    pub measures: Sequence<Measure>,

    /// One for each call of a member in a clause of a member, by clause and call.
    pub falls: Sequence<Fall>,
}

impl Drop for Mapping {
    fn drop(self) {
        let Mapping {
            measures: _,
            falls: _,
        } = self;
    }
}
