//! The facts of a certificate's parts, in the order of the format.
//!
//! `facts_of` is the other direction of `parts_of` of cert_structure, which finds the same parts in these facts.
//! `Writer` and `write_each` are for any type of facts, and so are the writers of the facts that both kinds of
//! certificates have (`FromShared`): `lex_certificate` writes its own by them.
#![tactic(auto)]

mod fields;
mod ground_rows;
mod mappings;
mod model;
mod modes;
mod preconditions;
mod refutations;
mod shared_facts;
mod size_rows;
mod writer;
mod writing;

pub use fields::{counted, numbers};
pub use model::WrittenModel;
pub use preconditions::WrittenPreconditions;
pub use refutations::WrittenRefutations;
pub use shared_facts::FromShared;
pub use writer::{Writer, append, write_each};
pub use writing::facts_of;
