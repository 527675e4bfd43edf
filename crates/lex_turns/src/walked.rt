//! What a walk over sets of positions has found.

use crate::measure_list::MeasureList;
use sequences::Sequence;

/// The minimal supports that were found, each with its list, and the sets that were given up.
#[derive(Drop)]
pub(crate) struct Walked {
    pub(crate) found: Sequence<Sequence<u32>>,
    pub(crate) lists: Sequence<MeasureList>,
    pub(crate) blown: Sequence<Sequence<u32>>,
}
