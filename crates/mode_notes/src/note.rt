//! The sentences of the notes.

use thiserror::Error;

/// Why a predicate has no mode, as it is said. Predicates stand as `NAME/ARITY` in back quotes, or as a disjunction.
#[derive(Clone, Copy, Debug, PartialEq, Eq, Error)]
pub enum Note<'a> {
    #[error("{pred} has no mode: no known size of {arguments} gets smaller from the head of this clause to this call")]
    OneCall {
        pred: &'a str,
        /// Argument positions of the predicate, or of another one of its group.
        arguments: &'a str,
    },
    #[error("{pred} has no mode: no single weighted sum of sizes falls at all of these calls: {places}")]
    Calls {
        pred: &'a str,
        places: &'a str,
    },
    #[error("{pred} has no mode: no single weighted sum of sizes falls at all of these calls: {places}")]
    Stuck {
        pred: &'a str,
        places: &'a str,
    },
    #[error("{pred} has no mode: no list of mappings descends: the calls at {places} keep each other going")]
    NoList {
        pred: &'a str,
        places: &'a str,
    },
    #[error("{pred} has no mode: its recursive group has {positions} arguments, more than 12, so that only one measure was looked for")]
    Large {
        pred: &'a str,
        positions: u64,
    },
    #[error("{0} has no mode: the search for a measure was given up, since a number or a list grew too large")]
    Blown(&'a str),
    #[error("{0} has no mode: the search for a list of mappings was given up, since a number or a list grew too large")]
    BlownLists(&'a str),
    #[error("{pred} has no mode: it calls {callee}, which has none")]
    Callee {
        pred: &'a str,
        callee: &'a str,
    },
    #[error("{pred} has no mode: {need}, and no {known} arguments of a query make sure of that")]
    Needs {
        pred: &'a str,
        need: &'a str,
        known: &'a str,
    },
    #[error("{pred} has no mode: {need}, and {lack}")]
    Lacks {
        pred: &'a str,
        need: &'a str,
        /// The variables that are lacking, and the places of other calls that lack something.
        lack: &'a str,
    },
    #[error("{pred} has no mode: no {known} arguments of a query are enough for all the calls of its clauses{places}")]
    Unmet {
        pred: &'a str,
        known: &'a str,
        /// The calls that may lack something, after a colon, or nothing.
        places: &'a str,
    },
    #[error("{0} has no mode: no measure was found")]
    Unknown(&'a str),
}

impl Note<'_> {
    /// What to do, a sentence about loops or variables aside.
    pub(crate) fn advice(self) -> &'static str {
        match self {
            Note::OneCall { .. } => "give the call something that gets smaller",
            Note::Calls { .. } => {
                "try `cti lex`, which compares several sums in turn; or let one argument, or one sum of arguments, get smaller at each of them"
            }
            Note::Stuck { .. } => {
                "let one argument, or one sum of arguments, get smaller at each of them; `cti lex` finds no mode here either"
            }
            Note::NoList { .. } => {
                "let one argument, or one sum of arguments, get smaller at each of them"
            }
            Note::Large { .. } => "put arguments that belong together into one term",
            Note::Blown(_) | Note::BlownLists(_) =>
                "split the predicate, or give it fewer arguments",
            Note::Callee { .. } => "the note about that one says why",
            Note::Needs { .. } | Note::Lacks { .. } | Note::Unmet { .. } => {
                "call something before it that makes the argument known, or give the clause's head one more argument"
            }
            Note::Unknown(_) => "split the predicate, or give it fewer arguments",
        }
    }
}
