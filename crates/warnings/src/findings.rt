//! The warnings about a text.

use crate::warning::Warning;

/// The warnings about a text, and the places of the variables that some of them name.
pub(crate) struct Findings {
    pub(crate) warnings: Vec<Warning>,
    pub(crate) places: Vec<u32>,
}

impl Drop for Findings {
    fn drop(self) {
        let Findings {
            warnings: _,
            places: _,
        } = self;
    }
}
