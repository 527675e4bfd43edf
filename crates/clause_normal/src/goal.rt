//! The goals of a body.

use crate::outline::Outline;
use crate::part::Item;

/// A goal of a body, where the arguments of a disjunction's predicate are known.
pub(crate) enum Goal<'a, 'v, 'o> {
    /// A goal that is not a disjunction.
    Item(Item<'a>),
    /// A disjunction: the variables that its predicate has as arguments, and its branches.
    Choice(Vec<u32>, &'o Vec<Outline<'a, 'v>>),
}

impl Drop for Goal<'_, '_, '_> {
    fn drop(self) {
        match self {
            Goal::Item(_) => {}
            Goal::Choice(_, _) => {}
        }
    }
}
