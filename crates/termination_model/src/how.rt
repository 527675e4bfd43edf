//! The kinds of steps.

/// What a step of a chain does to the rows of its clause's head.
#[derive(Clone, Copy, PartialEq, Eq)]
pub enum How {
    /// The image is empty, and the rows stay.
    None,
    /// The rows are empty, and become the image's.
    First,
    /// The rows become a join of themselves and the image's.
    Join,
    /// The rows that hold on the clause stay.
    Keep,
    /// The rows hold on the clause, and stay.
    Same,
}
