//! Parts of mappings.

use cti_terms::PredId;
use number_tests::LevelPart;

/// A member's part of a mapping.
#[derive(Drop)]
pub struct Measure {
    pub pred: PredId,
    pub part: LevelPart,
}
