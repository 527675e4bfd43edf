//! The course of a search: what its turns so far have come to.

use crate::group::Group;
use crate::mapping::Mapping;
use crate::measure_list::MeasureList;
use crate::place::Place;
use linear_rows::Numbers;
use sequences::Sequence;

/// Which transitions are gone, what is known of the place of each, and the mappings, one for each turn.
#[derive(Drop)]
pub(crate) struct Course {
    pub(crate) gone: Vec<bool>,
    pub(crate) places: Vec<Place>,
    pub(crate) mappings: Sequence<Mapping>,
}

/// Which of the transitions that remain leave in a turn.
#[derive(Clone, Copy)]
pub(crate) enum Leaving {
    /// All of them.
    All,
    /// The one at this place, which is put first.
    One(usize),
}

/// A turn that is made: which transitions leave, the mapping, and the multipliers that show it.
#[derive(Drop)]
pub(crate) struct Made {
    pub(crate) leaving: Leaving,
    pub(crate) mapping: Mapping,
    pub(crate) multipliers: Numbers,
}

/// What comes of a turn for the transitions that remain.
#[derive(Drop)]
pub(crate) enum Step {
    Made(Made),
    /// No transition that remains can leave: the groups of a stuck set.
    Refuted(Sequence<Group>),
    /// None can leave or that is not known.
    Blown,
}

/// How a search goes on.
#[derive(Drop)]
pub(crate) enum Next {
    /// A turn was made.
    More,
    /// No transition remains.
    Done,
    /// No transition that remains can leave: the groups of a stuck set.
    Refuted(Sequence<Group>),
    /// A turn cannot be made.
    Blown,
}

/// What the search for a list at a set of positions finds.
#[derive(Drop)]
pub(crate) enum Within {
    /// A list that descends, whose mappings have numbers at these positions alone.
    List(MeasureList),
    /// There is no such list: the groups of a stuck set.
    Nothing(Sequence<Group>),
    /// Neither: the search is given up.
    GivenUp,
}
