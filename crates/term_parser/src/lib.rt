//! The parser of a clause's term: it takes a token at a time, holds a stack of what is open and never recurses.
//!
//! It follows `walk_step` of `prolog_grammar`, whose laws say what tokens read as. Depends on `cti_terms` for names,
//! `prolog_operators` for operators, and `prolog_terms` for tokens as the grammar sees them and terms with places.
#![tactic(auto)]

mod after_name;
mod after_term;
mod ends;
mod frame;
mod limits;
mod operands;
mod parser;
mod part;
mod stack;
mod state;

pub use limits::MOST_OPENERS;
pub use parser::Parser;
pub use part::Part;
pub use state::{Refusal, State, Step};
