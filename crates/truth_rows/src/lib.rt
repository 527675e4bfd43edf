//! Sets of truth rows as decision diagrams, and what is tested of them.
//!
//! A truth row says which arguments of an atom are rigid. A set of truth rows is a diagram whose variable i is argument
//! i. In the diagrams of a clause, variable i is the clause's variable i, and twelve further variables stand for the
//! arguments of one atom at a time. So each test over all values of a clause's variables is exact.
//!
//! Depends on `bool_diagrams`, and on `termination_model`, which says what is tested.
#![tactic(auto)]

mod atoms;
mod clause_rows;
mod closedness;
mod covering;
mod ends;
mod head_rows;
mod inside;
mod of_cubes;
mod of_modes;
mod placing;
mod rigidity;
mod rules;
mod upper;

pub use atoms::{argument_rows, atom_rows};
pub use clause_rows::rows_of_clause;
pub use closedness::is_closed_under;
pub use covering::is_covered;
pub use ends::{put_body_off, without_ended};
pub use head_rows::rows_of_head;
pub use inside::is_inside;
pub use of_cubes::cube_rows;
pub use of_modes::admits;
pub use placing::place_head;
pub use rules::ClauseRule;
pub use upper::{upper_rows, upward_union};
