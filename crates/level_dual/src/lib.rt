//! Level mappings of a component, by duality.
//!
//! A mapping gives each atom of a member a natural number: an offset and multiples of the sizes of its arguments. It
//! decreases where the number of a clause's head is above that of each call of a member, for all sizes that obey the
//! size rows of the atoms before the call. `component_mappings` finds the minimal supports of such mappings, or a
//! refutation, which shows that there is none. At a set of positions, a point of one linear system is a mapping with
//! multipliers that show its falls; multipliers that refute the system are points of the calls' variables, which rule
//! mappings out. The falls and the refutation are tested as the check of a certificate tests them. What is found is
//! said in `specs/Found.antt` of `level_systems`.
#![tactic(auto)]

mod excluding;
mod falling;
mod finding;
mod large;
mod needed;
mod paths;
mod places;
mod rays;
mod refuting;
mod searching;
mod small;
mod vanishing;
mod walked;
mod walking;

pub use falling::find_part;
pub use finding::{all_numbers, component_mappings, count_of, is_large, mappings, one_set};
pub use large::{find_large, has_coefficient, support_of, without_number};
pub use level_systems::{Fall, Found, Mapping, Measure};
pub use number_tests::{LevelPart, PairPoint, Refutation};
pub use refuting::accepted;
pub use searching::{measures_at, positions_at, search};
pub use small::{is_below, with_full};
pub use walking::{copied, copied_sets, is_above};
