//! Mappings with numbers.

use linear_rows::Numbers;
use number_turns::Feature;
use sequences::Sequence;

/// A mapping that has these numbers, one for each feature in order, and 0 at all others.
pub struct Mapping {
    pub features: Sequence<Feature>,
    pub numbers: Numbers,
}

impl Drop for Mapping {
    fn drop(self) {
        let Mapping {
            features: _,
            numbers: _,
        } = self;
    }
}
