//! What is warned of.

use cti_terms::Pred;

/// What is warned of, and the place of its first byte.
#[derive(Clone, Copy)]
pub(crate) enum Warning {
    /// A predicate that has no clause is called, in a clause of another one or in a query.
    NoClause {
        at: u32,
        pred: Pred,
        caller: Option<Pred>,
    },
    /// A predicate that has no clause is called, and another one of its name has clauses.
    OtherArity {
        at: u32,
        pred: Pred,
        arity: u32,
    },
    /// A goal's expression has this name, so that it never has a value.
    NoValue {
        at: u32,
        pred: Pred,
    },
    /// Variables occur only once in their clause: this many of the findings' places, from this one on.
    Singletons {
        at: u32,
        start: usize,
        count: usize,
    },
}

impl Warning {
    /// The predicate, or the name of an expression with the number of its arguments.
    pub(crate) fn pred(self) -> Option<Pred> {
        match self {
            Warning::NoClause { pred, .. }
            | Warning::OtherArity { pred, .. }
            | Warning::NoValue { pred, .. } => Some(pred),
            Warning::Singletons { .. } => None,
        }
    }

    /// The other predicate that is named: the one that calls, or the one that has clauses.
    pub(crate) fn other(self) -> Option<Pred> {
        match self {
            Warning::NoClause { caller, .. } => caller,
            Warning::OtherArity { pred, arity, .. } => Some(Pred {
                name: pred.name,
                arity,
            }),
            _ => None,
        }
    }

    /// The place.
    pub(crate) fn at(self) -> u32 {
        match self {
            Warning::NoClause { at, .. }
            | Warning::OtherArity { at, .. }
            | Warning::NoValue { at, .. }
            | Warning::Singletons { at, .. } => at,
        }
    }
}
