//! What the mappings of a component have to satisfy: its calls, and the linear system of a set of argument positions.
#![tactic(auto)]

mod answer;
mod collecting;
mod component;
mod component_calls;
mod fall;
mod found;
mod mapping;
mod measure;
mod members;
mod own_call;
mod picking;
mod position;
mod reaching;
mod solving;
mod support_rows;
mod turn_rows;
mod values;

pub use answer::Answer;
pub use component::Component;
pub use component_calls::collect;
pub use fall::Fall;
pub use found::Found;
pub use mapping::Mapping;
pub use measure::Measure;
pub use members::component_positions;
pub use own_call::OwnCall;
pub use picking::{in_order, picked};
pub use position::Position;
pub use reaching::{Reach, emptiness, point_of};
pub use solving::solve_by;
pub use support_rows::support_system;
pub use turn_rows::turn_system;
pub use values::level_part;
