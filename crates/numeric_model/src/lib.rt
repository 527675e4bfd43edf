//! How the size rows of a program's predicates come about.
//!
//! `solve` goes through the components of a program, callees first, and takes steps on their clauses until a pass over
//! a component changes no rows. Over any domain of size rows the steps are a legal chain, as `termination_model`
//! defines it, and each row of the chain's last rows has its proof for each clause.
//!
//! Components can also be solved one by one: `solve_component` solves one above the rows of those that it calls, in the
//! time of the program, and `State::solve` solves one after another in one state, each in its own time.
//!
//! Depends on `polyhedra`, whose trait of domains says all that is used of a domain, on `component_clauses`, and on
//! `termination_model`.
#![tactic(auto)]

mod chain;
mod component;
mod filled;
mod in_turn;
mod latest;
mod noting;
mod repeating;
mod running;
mod sharing;
mod solving;
mod state;
mod step;
mod stepped;
mod stepping;
mod value;

pub use chain::Chain;
pub use component::solve_component;
pub use solving::solve;
pub use state::State;
pub use step::Step;
pub use termination_model::How;
