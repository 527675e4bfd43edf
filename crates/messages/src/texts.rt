//! The texts that a message is about.

/// The texts that a message is about. Each may be empty, where it was not kept.
#[derive(Clone, Copy)]
pub struct Texts<'a> {
    /// The text that has the place.
    pub told: &'a [u8],
    /// The program's, whose directives declare operators.
    pub program: &'a [u8],
}

impl Texts<'_> {
    /// No texts.
    pub fn none() -> Texts<'static> {
        Texts {
            told: b"",
            program: b"",
        }
    }
}
