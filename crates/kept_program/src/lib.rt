//! All that is kept of a program from one edit of it to the next, and the certificate that it gives.
//!
//! A `KeptProgram` has a program and what was found of each of its components: size rows with their proofs and the
//! steps that led to them, mappings, ground rows, preconditions and modes. After an edit the components that stand for
//! old ones keep what was found of them, and the others are solved anew. A certificate is made only when it is asked
//! for; that it is valid and exact is known without one, and so are its modes.
//!
//! The sets of truth rows stand in one table of diagrams, which only grows. Where it has more than 4,096 nodes and more
//! than twice as many as when it was new, what is in use moves to a new one.
//!
//! Depends on `solved_program`, `carried_mappings` and `carried_preconditions` for what an edit keeps, on `report` for
//! certificates, and on `moved_diagrams` for a new table.
#![tactic(auto)]

mod kept;
mod kept_program;
mod renewing;
mod resolving;

pub use kept_program::KeptProgram;
