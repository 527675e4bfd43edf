//! The drops of a list's mappings at a call.

use linear_rows::Multipliers;
use sequences::Sequence;

/// What shows the place of a call in a list of mappings. Clause and call count from 1.
///
/// There are multipliers for each mapping up to the call's place: those before the last show that the level does not
/// rise from the head of the clause to the call, and the last that it falls.
#[derive(Drop)]
pub struct CallDrops {
    pub clause: u32,
    pub call: u32,
    pub by: Sequence<Multipliers>,
}
