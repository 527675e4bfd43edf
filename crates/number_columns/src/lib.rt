//! Rows of what the value of a term has above 0 and below, over three numbers for each variable: its size, and what its
//! value has above 0 and below.
//!
//! A term is linear where it is a variable, an integer or no arithmetic operation, or a sum, difference or negation of
//! linear terms, or a product of linear terms one of which has no variable that is evaluated. Its value then has a row.
//! What the rows mean is defined in `termination_model` (`specs/columns`), on which the crate depends, with `cti_terms`
//! and `linear_rows`.
#![tactic(auto)]

mod arguments;
mod cell;
mod column_rows;
mod column_systems;
mod columns;
mod evaluated;
mod finding;
mod kind;
pub mod laws;
mod line;
mod links;
mod norm_columns;
mod numeric;
mod parts;
mod rows_over;
mod stated;
mod three_columns;

pub use arguments::atom_columns;
pub use column_rows::{ValueRows, value_rows};
pub use column_systems::{ColumnSystem, add_atom, column_system};
pub use columns::{ColumnList, Columns, MOST_WIDTH};
pub use finding::program_kinds;
pub use kind::{Kind, Kinds};
pub use norm_columns::NormColumns;
pub use rows_over::{RowOver, row_over};
pub use stated::stated_value_rows;
pub use three_columns::ThreeColumns;
