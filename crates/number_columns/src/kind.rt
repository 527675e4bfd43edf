//! Kinds of argument positions.

use sequences::Sequence;

/// The kind of an argument position.
#[derive(Clone, Copy, PartialEq, Eq, Debug)]
pub enum Kind {
    /// Arguments at the position are measured by their size alone.
    Size,

    /// Arguments at the position are measured by their size and their value.
    Number,
}

/// The kinds of each predicate's arguments, by the predicate's number.
pub type Kinds = Sequence<Sequence<Kind>>;
