//! The parts of a certificate: what it claims of each predicate and clause of a program, and with which proofs.
//!
//! A certificate is a list of facts. `parts_of` sorts them by predicates and clauses, or names the first that is wrong,
//! out of place or missing. What parts a certificate has is `IsStructured` of `specs/Structure.antt`, and which fault
//! `IsStructureFault` of `specs/StructureFault.antt`. Whether what it claims is true is not asked here.
//!
//! It depends on `certificate` and `fact_reading` for facts, on `cti_terms` and `call_components` for programs, and on
//! `termination_model`, `number_tests`, `linear_rows`, `bool_diagrams` and `sequences` for what facts say.
#![tactic(auto)]

mod calls;
mod clauses;
mod cubes;
mod falls;
mod fault;
mod grounds;
mod items;
mod levels;
mod modes;
mod named;
mod numbers;
mod pair;
mod parts;
mod points;
mod preconditions;
mod reading;
mod refutations;
mod shared_fact;
mod sizes;

pub use calls::Calls;
pub use clauses::{body_at, head_at};
pub use fact_reading::StructureReason;
pub use fault::PartsFault;
pub use grounds::Grounds;
pub use items::count_of;
pub use modes::{Modes, copied_modes};
pub use named::{Named, is_number};
pub use number_tests::{LevelPart, PairPoint, Refutation};
pub use numbers::{level, multipliers, scaled_point};
pub use pair::{Pair, vars};
pub use parts::Parts;
pub use preconditions::Preconditions;
pub use reading::{one_structure, one_structure_fault, parts_of, told_apart};
pub use refutations::{PointFacts, Refutations};
pub use shared_fact::{AsShared, SharedFact};
pub use sizes::{PredRows, Proofs, rows_into, rows_of, rows_of_atoms};
