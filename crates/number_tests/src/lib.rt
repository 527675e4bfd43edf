//! Tests of numbers: whether multipliers show size rows and falls, and whether points refute all mappings.
//!
//! A size row of a clause's head, or the fall of a mapping at a call, is shown by multipliers of the rows of body
//! atoms. That no mapping of a component falls is shown by points of its pairs of a clause and a call. Each test forms
//! numbers in a stated order, and says whether one does not fit. What the numbers have to show is defined in `specs/`,
//! over plain lists of whole numbers. Those who find such numbers and those who check them run the same tests.
//!
//! Depends on `termination_model`, which gives systems of clauses, and on `linear_rows`.
#![tactic(auto)]

mod clause_systems;
mod falls;
mod flaw;
mod level_part;
mod member_sums;
mod pair_point;
mod pair_sums;
mod point_flaw;
mod point_flaws;
mod point_values;
mod reached;
mod reaching;
mod refutation;
mod row_proofs;
mod targets;

pub use clause_systems::{extend, first_system};
pub use falls::fall_columns;
pub use flaw::Flaw;
pub use level_part::LevelPart;
pub use pair_point::PairPoint;
pub use pair_sums::sums_flaw;
pub use point_flaw::PointFlaw;
pub use point_flaws::{points_flaw, points_of};
pub use refutation::Refutation;
pub use row_proofs::{check_fall, check_size, multipliers_flaw};
pub use targets::{join_columns, size_target, weigh_drop};
