//! Bodies that are taken apart.

use crate::part::Item;

/// A goal of a body, where the arguments of a disjunction's predicate are not known. Variables are in order, with
/// repetitions.
#[cycle(outlines)]
#[derive(Drop)]
pub(crate) enum Piece<'a, 'v> {
    /// A goal that is not a disjunction, and its variables.
    Plain(Item<'a>, &'v [u32]),
    /// A disjunction: its place, its variables and its branches.
    Either(u32, &'v [u32], Vec<Outline<'a, 'v>>),
}

/// The goals of a body.
#[cycle(outlines)]
#[derive(Drop)]
pub(crate) struct Outline<'a, 'v> {
    pub(crate) pieces: Vec<Piece<'a, 'v>>,
}
