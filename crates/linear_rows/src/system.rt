//! Systems of a clause.

use crate::row::Rows;

/// The rows of a clause's body atoms and the size expressions of its head's arguments, over the clause's variables.
///
/// Both lists have the width `variables`. `wide` says that a row had a number that does not fit, and stands as the row
/// of zeros.
#[derive(Drop)]
pub struct System {
    pub variables: u32,
    pub rows: Rows,
    pub head: Rows,
    pub wide: bool,
}
