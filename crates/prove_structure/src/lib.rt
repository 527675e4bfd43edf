//! Reading the parts of a certificate of measures with numbers.
//!
//! `parts_of` sorts the facts of a certificate by predicates and clauses. What parts a certificate has is
//! `IsStructured` of `prove_parts`. The code reads fact by fact, from the front, as `specs/Walk.antt` says.
#![tactic(auto)]

mod bounds;
mod clauses;
mod drops;
mod fails;
mod groups;
mod kinds;
mod lists;
mod numbers;
mod pairs;
mod points;
mod reading;
mod rows;

pub use reading::{one_reading, one_structure, parts_of};
