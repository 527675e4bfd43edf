//! What is found of a component's mappings, carried over an edit of the program.
//!
//! After an edit a component that stands for an old one needs no new search for its mappings: they are the old ones
//! under the new numbers of predicates and clauses. The falls and the refutation stay too, and so do the supports given
//! up, in the new order where that changes. No term is looked at, and no system is solved.
//!
//! Where the members stand in the same order in both programs, the numbers of argument positions are the same, and so
//! are supports. An edit can change their order, since predicates are numbered as they first occur. Then the parts of a
//! mapping, the numbers of positions and the mappings themselves are put in the new order, and they are the same
//! mappings. Clauses keep their order, and so do falls and points. Inside, `Standing::carry` carries what is found of
//! one component; `resolve_mappings` goes through all components, and searches for the mappings of each recursive one
//! that has none to carry.
//!
//! Depends on `component_laws`, whose laws say that mappings decrease wherever a component stands, on `level_systems`
//! for what is found of mappings, on `level_dual` for a search, and on `solved_program` for edits.
#![tactic(auto)]

mod moving;
mod order;
mod places;
mod reordering;
mod resolving;
mod sets;
mod standing;

pub use resolving::resolve_mappings;
