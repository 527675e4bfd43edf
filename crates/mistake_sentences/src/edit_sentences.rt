//! Sentences about edits that cannot be done.

/// What is wrong with an edit that cannot be done, shown as what to do about it.
#[derive(Clone, Copy)]
pub enum EditMistake {
    Add,
    Remove,
    Modes,
    Directive,
    Clause,
}

impl EditMistake {
    /// The sentence of the mistake.
    pub fn sentence(self) -> &'static str {
        match self {
            Self::Add =>
                "`add` takes one clause: put a rule in parentheses of its own, as `add((p(X) :- q(X)))`",
            Self::Remove =>
                "give the number of a clause that is there now: clauses are numbered from 1, and those after a removed one move up",
            Self::Modes =>
                "write `modes(Name/Arity)`, for a predicate that has a clause or is called now",
            Self::Directive =>
                "leave it out: only `:- op(Priority,Kind,Names)` and `:- discontiguous(..)` are read",
            Self::Clause =>
                "to add a clause, write it in `add(..)`, and a rule in parentheses of its own: `add((p(X) :- q(X)))`",
        }
    }
}
