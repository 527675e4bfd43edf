//! The check of a certificate: a Yes means that it is valid, and that the queries that meet its modes end.
//!
//! A certificate proves by multipliers of rows that size rows are kept and that level mappings fall, and by points that
//! no mapping falls. Each test here finds the first fact that does not hold, with its line and the reason, and
//! none exactly where all hold. What it means that they hold is defined in `specs/`, over plain lists of whole numbers,
//! and the laws of `laws` lead from there to claims that show queries to end. `check` asks all tests, those of the
//! structure and of the modes among them: `IsValid` of `specs/Valid.antt` says what makes a certificate valid, and
//! `ModesAreBounded` of `specs/Bounding.antt` what that means for queries.
//!
//! Depends on `cert_structure`, which gives the parts of a certificate, on `cert_modes`, and on `number_tests`, which
//! tests multipliers and points.
#![tactic(auto)]

mod bounding;
mod checking;
mod fall_faults;
mod fault;
pub mod laws;
mod lines;
mod lower_faults;
mod measure_faults;
mod norms;
mod reason;
mod refutation_faults;
mod size_faults;
mod stated_faults;
mod verdict;

pub use bounding::valid_certificates_bound_their_modes;
pub use checking::check;
pub use fall_faults::fall_fault;
pub use fault::Fault;
pub use measure_faults::{is_zero, measure_fault};
pub use norms::norm_of;
pub use number_tests::{check_fall, check_size};
pub use reason::Reason;
pub use refutation_faults::refutation_fault;
pub use size_faults::size_fault;
pub use stated_faults::stated_fault;
pub use verdict::Verdict;
