//! Why tests of numbers fail.

/// Why a test of numbers fails.
#[derive(Clone, Copy, PartialEq, Eq, Debug)]
pub enum Flaw {
    /// The numbers do not show what they have to show.
    Fails,
    /// A number does not fit.
    Wide,
}
