//! What can stand for predicates that Prolog programs take from the system or its libraries.

use crate::library_names::{
    DELAYED, LOADING, OF_GOALS, OF_GRAMMARS, OF_STATE, OUTPUT, TESTS, UNKNOWN, WITH_CLAUSES,
};
use mistake_sentences::GoalMistake;

/// What can stand for a predicate that has no clause.
#[derive(Clone, Copy)]
pub enum Library {
    /// Clauses of a pure program do what this predicate of a library does.
    Clauses,
    /// None do, or none for every use.
    NoClauses,
    /// Ends, and only fails or not.
    Test,
    /// Ends, and what it binds is not known here.
    Unknown,
    /// Ends, and writes.
    Output,
    /// Changes clauses or values that last.
    State,
    /// Loads files.
    Loading,
    /// Delays goals.
    Delayed,
    /// Calls grammar rules.
    Grammar,
    /// A list.
    List,
    /// A name with a number of arguments, and no call.
    Indicator,
    /// Not known as a predicate of a library.
    Other,
}

/// Whether a name of the given arity is one of a list.
fn is_one_of(list: &[(&str, u32)], text: &str, arity: u32) -> bool {
    for (name, number) in list {
        if *name == text && *number == arity {
            return true;
        }
    }
    false
}

/// What stands for a predicate that does more than to fail or to bind.
fn acting(text: &str, arity: u32) -> Option<Library> {
    Some(if is_one_of(&OUTPUT, text, arity) {
        Library::Output
    } else if is_one_of(&OF_STATE, text, arity) {
        Library::State
    } else if is_one_of(&LOADING, text, arity) {
        Library::Loading
    } else if is_one_of(&DELAYED, text, arity) {
        Library::Delayed
    } else if is_one_of(&OF_GRAMMARS, text, arity) {
        Library::Grammar
    } else {
        return term_of(text, arity);
    })
}

/// What stands for a term that is no call.
fn term_of(text: &str, arity: u32) -> Option<Library> {
    match (text, arity) {
        ("/", 2) => Some(Library::Indicator),
        (".", 2) | ("[]", 0) => Some(Library::List),
        _ => None,
    }
}

/// What can stand for the predicate of this name and arity.
pub(crate) fn library_of(text: &str, arity: u32) -> Library {
    if is_one_of(&WITH_CLAUSES, text, arity) {
        Library::Clauses
    } else if is_one_of(&OF_GOALS, text, arity) {
        Library::NoClauses
    } else if is_one_of(&TESTS, text, arity) {
        Library::Test
    } else if is_one_of(&UNKNOWN, text, arity) {
        Library::Unknown
    } else {
        acting(text, arity).unwrap_or(Library::Other)
    }
}

impl Library {
    /// What to do about a call of such a predicate.
    pub(crate) fn advice(self) -> &'static str {
        match self {
            Library::Clauses => "libraries are not read: add its clauses",
            Library::NoClauses => {
                "no clauses of pure Prolog do what it does: `cti-file` reads files that use it"
            }
            Library::Test => GoalMistake::Test.sentence(),
            Library::Unknown => GoalMistake::Unknown.sentence(),
            Library::Output => GoalMistake::Output.sentence(),
            Library::State => {
                "write what it keeps as clauses: none are added, removed or declared while a query runs"
            }
            Library::Loading => "put the clauses of the other file into this one",
            Library::Delayed =>
                "write the goal itself, where what it needs is known: goals are not delayed",
            Library::Grammar =>
                "write `p(S0,S)` for `phrase(p,S0,S)`, with clauses in the place of grammar rules",
            Library::List =>
                "a list is not a goal: write its goals with commas, or the clauses of the files that it names",
            Library::Indicator => "NAME/ARITY only names a predicate: write a call of it",
            Library::Other => "correct the name, or add its clauses",
        }
    }
}
