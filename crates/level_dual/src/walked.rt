//! What a walk over sets of positions has found.

use level_systems::Mapping;
use sequences::Sequence;

/// The minimal supports that were found, each with its mapping, and the sets that were given up.
#[derive(Drop)]
pub(crate) struct Walked {
    pub(crate) found: Sequence<Sequence<u32>>,
    pub(crate) mappings: Sequence<Mapping>,
    pub(crate) blown: Sequence<Sequence<u32>>,
}
