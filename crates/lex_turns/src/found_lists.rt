//! What is found of a component's lists of mappings.

use crate::measure_list::MeasureList;
use number_tests::Refutation;
use sequences::Sequence;

/// The lists of mappings of a component that descend, or why there are none.
///
/// The positions of a component are numbered from 1, by predicate and argument. The support of a list is the ascending
/// list of the numbers of the positions at which some mapping of it is positive.
pub struct FoundLists {
    /// Lists that descend, by their supports: the shorter ones first.
    pub lists: Sequence<MeasureList>,

    /// A stuck set: why no list descends.
    pub refutation: Option<Refutation>,

    /// The supports that were given up.
    pub blown: Sequence<Sequence<u32>>,

    /// Whether there are more than 12 positions, so that not all supports are looked at.
    pub large: bool,
}

impl Drop for FoundLists {
    fn drop(self) {
        let FoundLists {
            lists: _,
            refutation: _,
            blown: _,
            large: _,
        } = self;
    }
}
