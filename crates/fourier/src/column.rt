//! The column that a step eliminates.

/// Which column is eliminated, and which columns are compared: from 1 to the last one.
#[derive(Clone, Copy)]
pub struct Column {
    pub k: usize,
    pub last: usize,
}
