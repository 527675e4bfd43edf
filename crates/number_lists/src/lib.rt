//! Lists of mappings with numbers that descend over transitions, found in turns.
//!
//! A list descends where at each transition some mapping falls and is at least 0 on the head, and none before it in the
//! list rises. Its support is the set of argument positions at which some mapping of it has a number other than 0.
//! `search` finds a list for each minimal support, or a stuck set, which shows that no list descends. At a set of
//! positions a turn asks for a mapping that falls at all transitions that remain, or else at one of them, which then
//! leaves; where the turns of all that remain are refuted, no list at these positions descends. `specs/FoundLists.antt`
//! says what is found.
#![tactic(auto)]

mod course;
mod cutting;
mod deciding;
mod features;
mod found_lists;
mod group;
mod grouping;
mod large;
mod lists;
mod mapping;
mod measure_list;
mod place;
mod position;
mod searching;
mod supports;
mod system;
mod tracking;
mod transition_point;
mod turning;
mod walking;

pub use found_lists::FoundLists;
pub use group::Group;
pub use lists::search;
pub use mapping::Mapping;
pub use measure_list::MeasureList;
pub use place::Place;
pub use position::Position;
pub use supports::support_of;
pub use transition_point::TransitionPoint;
