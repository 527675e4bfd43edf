//! One turn of the search for a list of mappings with numbers that descends over transitions.
//!
//! A turn asks for a mapping with given numbers alone, that rises at no transition, and that falls and is at least 0 on
//! the head at those that are marked. `turn` makes the template of this, the rows that the numbers and the multipliers
//! have to obey, and solves it: a point gives the mapping with what shows it, and multipliers that refute the template
//! are points of the transitions, of which stuck sets are made. What is found is said in `specs/Turning.antt`.
#![tactic(auto)]

mod atom_columns;
mod demand;
mod feature;
mod found;
pub mod laws;
mod naturals;
mod solving;
mod template;
mod transition;
mod turned;
mod turning;

pub use atom_columns::AtomColumns;
pub use feature::Feature;
pub use found::Found;
pub use transition::Transition;
pub use turned::Turned;
pub use turning::turn;
