//! Lists of level mappings that descend.

use crate::call_drops::CallDrops;
use level_systems::Measure;
use sequences::Sequence;

/// A list of mappings of a component that descends, with what shows that.
pub struct MeasureList {
    /// For each mapping of the list a part for each member, by the numbers of the predicates.
    pub measures: Sequence<Sequence<Measure>>,

    /// One for each call of a member in a clause of a member, by clause and call.
    pub drops: Sequence<CallDrops>,
}

impl Drop for MeasureList {
    fn drop(self) {
        let MeasureList {
            measures: _,
            drops: _,
        } = self;
    }
}
