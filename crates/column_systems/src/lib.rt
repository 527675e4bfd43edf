//! Systems of a program's clauses over columns, from which size rows over the columns of kinds are found.
//!
//! `ColumnSystems` is what `size_chains` needs of a program's clauses: an argument has as many columns as its kind
//! says, a variable as many naturals as the columns say, and a column of a clause's head that has no expression may be
//! any natural. `size_chains::solve` over it finds rows for each predicate, and their proofs. That rows with these
//! proofs are claims of `termination_model` over columns is said by the laws.
//!
//! Depends on `size_chains`, whose trait of systems this is an instance of, and on `number_columns`, whose trait of
//! columns says all that is used of columns.
#![tactic(auto)]

mod column_systems;
pub mod laws;

pub use column_systems::ColumnSystems;
