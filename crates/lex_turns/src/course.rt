//! The course of a search: what its turns so far have come to.

use crate::call_drops::CallDrops;
use crate::measure_list::MeasureList;
use level_systems::Measure;
use sequences::Sequence;

/// Which calls are gone, the drops of each call, and the measures, one for each turn.
#[derive(Drop)]
pub(crate) struct Course {
    pub(crate) gone: Vec<bool>,
    pub(crate) drops: Vec<CallDrops>,
    pub(crate) measures: Sequence<Sequence<Measure>>,
}

/// How a search goes on.
#[derive(Clone, Copy)]
pub(crate) enum Next {
    /// A turn was made.
    More,
    /// No call remains.
    Done,
    /// No mapping at these positions falls at one of the calls that remain and rises at none.
    Refuted,
    /// A turn cannot be made.
    Blown,
}

/// What a search comes to.
#[derive(Drop)]
pub(crate) enum Ended {
    /// A list that descends.
    List(MeasureList),
    /// There is no list, since no turn can be made for the calls that are not gone.
    Refuted(Vec<bool>),
    /// Nothing: the search is given up.
    GivenUp,
}
