//! What is found of the lists of transitions.

use crate::group::Group;
use crate::measure_list::MeasureList;
use sequences::Sequence;

/// The lists of mappings that descend over transitions, or why there are none.
///
/// The positions are numbered from 1, in their order. The support of a list is the ascending list of the numbers of the
/// positions at which some mapping of it has a number other than 0.
pub struct FoundLists {
    /// Lists that descend, by their supports: the shorter ones first.
    pub lists: Sequence<MeasureList>,

    /// A stuck set: why no list descends.
    pub stuck: Option<Sequence<Group>>,

    /// The supports that were given up.
    pub blown: Sequence<Sequence<u32>>,

    /// Whether there are more than 12 positions, so that not all supports are looked at.
    pub large: bool,
}

impl Drop for FoundLists {
    fn drop(self) {
        let FoundLists {
            lists: _,
            stuck: _,
            blown: _,
            large: _,
        } = self;
    }
}
