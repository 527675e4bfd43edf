//! Domains of size rows: images of clauses, joins, and the rows that a clause keeps.
//!
//! A domain is a trait with laws, `Domain`, which the chain of size rows is computed over. `Poly` implements it by
//! polyhedra: each value lists rows of 128 bits, of which none follows from the others where its test can tell. The
//! rows of images and joins are projected, and rows are tested, by `redundant_rows`. What the answers mean is defined
//! in
//! `specs/` over the words of `linear_rows` and `termination_model`.
#![tactic(auto)]

mod bottom;
mod domain;
mod emptiness;
mod heads;
mod image_system;
mod imaging;
mod join_system;
mod joining;
mod keeping;
mod made;
mod poly;
mod widened;

pub use bottom::bottom_row;
pub use domain::Domain;
pub use made::Made;
pub use poly::Poly;
pub use widened::Widened;
