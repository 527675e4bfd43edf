//! What measures with numbers see of a component: its calls of itself, as transitions.
//!
//! A transition has the rows that are known before a call, over the numbers of the clause's variables, and the columns
//! of the clause's head and of the call. What a transition of a call is is said in `specs/OwnTransitions.antt`. Depends
//! on
//! `number_columns` for systems and columns, on `number_turns` for transitions, on `level_systems` for the test whether
//! rows are empty and for the pairs of a component, and on `component_clauses`.
#![tactic(auto)]

mod collecting;
pub mod laws;
mod own_transition;

pub use collecting::own_transitions;
pub use own_transition::OwnTransition;
