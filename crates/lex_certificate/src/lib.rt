//! Certificates of lists of level mappings: their facts, their text, and what they claim of a program.
//!
//! A certificate is a list of facts. `print` writes their lines, `parts_of` sorts them by predicates and clauses, and
//! `facts_of` lists the facts of such parts. What parts a certificate has is `IsStructured` of `specs/Structure.antt`.
//! `flat_levels` has one mapping for each list, positive where some measure of it is. Whether what a certificate claims
//! is true is not asked here.
#![tactic(auto)]

mod drops;
mod fact;
mod flat;
mod list_certificate;
mod lists;
mod parts;
mod points;
mod printing;
mod reading;
mod shared_fact;
mod writing;
mod written_lists;

pub use fact::LexFact;
pub use flat::{flat_levels, union_part};
pub use list_certificate::LexCertificate;
pub use parts::LexParts;
pub use reading::{one_reading, one_structure, parts_of};
pub use writing::facts_of;
