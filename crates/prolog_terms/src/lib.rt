//! Terms and clauses with places in a text, the variables of a clause, and tokens as the grammar sees them.
#![tactic(auto)]

mod clause;
mod clauses;
mod natural;
mod symbol;
mod term;
mod variables;

pub use clause::ReadClause;
pub use clauses::ReadClauses;
pub use natural::Natural;
pub use symbol::{Known, Symbol};
pub use term::{ReadShape, ReadTerm};
pub use variables::Variables;
