//! What the search for a list at a set of positions finds.

use crate::measure_list::MeasureList;

/// What the search for a list of mappings at a set of positions finds.
#[derive(Drop)]
pub(crate) enum Within {
    /// A list that descends, whose mappings are positive at these positions alone.
    List(MeasureList),
    /// There is no such list.
    Nothing,
    /// Neither: the search is given up.
    GivenUp,
}
