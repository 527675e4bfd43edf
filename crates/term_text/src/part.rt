//! What is left to be written of a term.

use cti_terms::Term;

/// What is left to be written of a term.
#[derive(Clone, Copy, Drop)]
pub enum Part<'t> {
    /// A term by itself.
    Alone(&'t Term),

    /// The tail of a list, and the bracket that ends the list.
    Tail(&'t Term),

    /// Arguments, each after a comma, and the parenthesis after the last.
    Arguments(&'t [Term]),

    /// The bracket that ends a list.
    ListEnd,
}
