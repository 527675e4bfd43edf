//! How the size rows of a program's predicates come about, over the systems of its clauses.
//!
//! `ClauseSystems` says what a chain needs of clauses: how many columns a predicate has, over how many naturals a
//! clause's rows are, what the rows of its body atoms are over these, and which expressions the columns of its head
//! have. A norm is the case of one column for each argument, its size (`NormSystems`).
//!
//! `solve` goes through the components of a program, callees first, and takes steps on their clauses until a pass over
//! a component changes no rows. Over any domain of size rows the steps are a legal chain, and each row of the chain's
//! last rows has its proof for each clause. `solve_component` solves one component above the rows of those that it
//! calls, in the time of the program, and `State::solve` solves one after another in one state, each in its own time.
//!
//! Depends on `polyhedra`, whose trait of domains says all that is used of a domain, on `component_clauses`, and on
//! `termination_model`, whose legal chains these are for a norm.
#![tactic(auto)]

mod chain;
mod clause_system;
mod clause_systems;
mod component;
mod filled;
mod in_turn;
mod latest;
mod laws;
mod making;
mod norms;
mod noting;
mod repeating;
mod running;
mod sharing;
mod solving;
mod state;
mod step;
mod stepped;
mod stepping;
mod tying;
mod value;

pub use chain::Chain;
pub use clause_system::ClauseSystem;
pub use clause_systems::ClauseSystems;
pub use component::solve_component;
pub use laws::{append_has_this_chain, last_rows_are_kept, norms_have_these_chains};
pub use norms::NormSystems;
pub use solving::solve;
pub use state::State;
pub use step::Step;
pub use termination_model::How;
