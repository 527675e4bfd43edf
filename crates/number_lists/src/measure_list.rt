//! Lists of mappings that descend.

use crate::mapping::Mapping;
use crate::place::Place;
use sequences::Sequence;

/// A list of mappings that descends over transitions, with what shows that.
pub struct MeasureList {
    pub mappings: Sequence<Mapping>,

    /// The place of each transition, in their order.
    pub places: Sequence<Place>,
}

impl Drop for MeasureList {
    fn drop(self) {
        let MeasureList {
            mappings: _,
            places: _,
        } = self;
    }
}
