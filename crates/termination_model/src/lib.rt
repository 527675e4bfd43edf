//! What is claimed of a program's predicates, from which the ends of its queries follow.
//!
//! The definitions in `specs/` speak of size rows, sets of truth rows and level mappings: which size rows are
//! inductive, which families of truth rows are closed, which mappings decrease, and which preconditions keep their
//! rule. Claims of all four kinds show that each query that meets a mode is bounded: the functions of `descent` say so.
//! `system` gives the size rows of a clause's body over the clause's variables.
//!
//! How size rows come about is defined too: by legal chains of steps, whose last rows the clauses keep.
//!
//! Depends on `cti_terms`, `call_components`, `term_size` and `linear_rows`.
#![tactic(auto)]

mod choosing;
mod column_descent;
mod descent;
mod how;
pub mod laws;
mod replacing;
mod sizes;
mod stated;
mod supports;
mod systems;
mod turns;
mod worlds;

pub use choosing::{is_part, number_sets};
pub use column_descent::{
    a_count_is_bounded, a_count_without_bound_is_stuck, a_query_over_columns_is_bounded,
    column_proofs_show, norms_are_columns, stuck_sets_over_columns_exclude_lists, three_measures,
};
pub use descent::{a_query_is_bounded, proofs_show};
pub use how::How;
pub use replacing::{add_expressions, columns, replaced};
pub use sizes::{SizeRows, Sizes};
pub use stated::stated_rows;
pub use supports::{
    all_positions_cover, points_give_mappings, refuted_systems_exclude_mappings,
    systems_give_mappings, views_are_ready,
};
pub use systems::{add_atom, system};
pub use turns::{
    ackermann_descends, stuck_sets_exclude_lists, turns_drop_or_stick, turns_give_lists,
};
pub use worlds::{
    a_query_is_bounded_in_worlds, a_query_over_columns_is_bounded_in_worlds, claims_are_facts,
    claims_are_renumbered, claims_link, column_claims_are_facts, column_claims_link,
    generated_queries_are_bounded, stronger_column_facts_serve, stronger_facts_serve,
};
