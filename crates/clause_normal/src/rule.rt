//! Clauses before their predicates and variables are numbered.

use clause_variables::Args;
use cti_terms::Name;

/// What is called: a name, or the predicate of the disjunction of this number.
#[derive(Clone, Copy)]
pub(crate) enum Functor {
    Named(Name),
    Chosen(u64),
}

/// An atom before its predicate is numbered.
pub(crate) struct Call<'a> {
    pub(crate) functor: Functor,
    pub(crate) args: Args<'a>,
}

impl Drop for Call<'_> {
    fn drop(self) {
        let Call {
            functor: _,
            args: _,
        } = self;
    }
}

/// A clause before its predicates and variables are numbered.
pub(crate) struct Rule<'a> {
    pub(crate) head: Call<'a>,
    pub(crate) body: Vec<Call<'a>>,
}

impl Drop for Rule<'_> {
    fn drop(self) {
        let Rule { head: _, body: _ } = self;
    }
}
