//! What certificates of measures with numbers claim of a program: their parts, and their shape.
//!
//! What parts a certificate has is `IsStructured` of `specs/Structure.antt`: which facts stand in which order, and how
//! long their lists are. Whether what they claim is true is not asked here, nor whether the kinds are those of the
//! program. `flattened` has one mapping for each list, positive at the arguments that some measure of it has a number
//! at.
#![tactic(auto)]

mod flat;
mod flattening;
mod parts;
mod stuck;
mod widths;

pub use flat::{flat_levels, union_part};
pub use flattening::flattened;
pub use parts::ProveParts;
pub use stuck::{GroupPoint, StuckGroup, StuckSet};
pub use widths::{columns, columns_in, columns_of};
