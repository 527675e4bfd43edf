//! Lists of level mappings of a component that descend, found in turns.
//!
//! A list descends where at each call of a member some mapping falls, and none before it in the list rises. Its support
//! is the set of argument positions at which some mapping of it is positive. `search` finds a list for each minimal
//! support, or a stuck set, which shows that no list descends. At a set of positions, a list is found in turns: in each
//! turn a point of one linear system is a mapping that rises at none of the calls that remain, and those at which it
//! falls leave. Where the system is refuted, no list at these positions descends. What is found is said in
//! `specs/FoundLists.antt` and `specs/Descending.antt`.
#![tactic(auto)]

mod call_drops;
mod copies;
mod course;
mod deciding;
mod dropping;
mod finding;
mod found_lists;
mod large;
mod lists;
mod measure_list;
mod needing;
mod searching;
mod single;
mod small;
mod sparing;
mod stuck;
mod tracking;
mod turn;
mod turning;
mod walked;
mod walking;
mod whole;
mod within;
mod zeros;

pub use call_drops::CallDrops;
pub use found_lists::FoundLists;
pub use lists::search;
pub use measure_list::MeasureList;
