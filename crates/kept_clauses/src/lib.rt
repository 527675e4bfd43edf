//! Which clauses of a program are kept where clauses are put into its list or taken out, and what such an edit does not
//! touch.
//!
//! Of a list that is edited, the clauses that are kept are named by the numbers that they had before the edit:
//! `kept_with` and `kept_without` say this of one edit. `kept_clauses` says it of the programs of two lists. Predicates
//! have other numbers in the second, but by the names and arities of its predicates each clause of a program depends on
//! its clause of the list alone; and the clause of `=`/2 is kept where both programs have it.
//!
//! A predicate is untouched where a set of predicates has it that is closed under calls and has the same clauses in
//! both programs. Where clauses were only put in, or only taken out, all clauses of the set are kept, in their order.
//! Where, too, components that stand keep what was found of them, and so do predicates without clauses, what is found
//! of its predicates stays as it was. Both are laws.
//!
//! Depends on `clause_normal` for programs of lists, and on `solved_program` for what it means that a component stands.
#![tactic(auto)]

mod kept_lists;
mod kept_programs;
pub mod laws;

pub use kept_lists::{all_kept, kept_with, kept_without};
pub use kept_programs::kept_clauses;
