//! The sentences of the warnings.

use thiserror::Error;

/// A warning as it is said. Predicates stand in it as `append/3`.
#[derive(Clone, Copy, Debug, Error)]
pub(crate) enum WarningSentence<'a> {
    #[error("this is a certificate, and it is read as a program of facts")]
    Certificate,
    #[error("`{pred}` is called and has no clause: here it always fails, so the modes of `{caller}` and its callers say nothing about a program that defines it")]
    NoClause {
        pred: &'a str,
        /// The predicate whose clause calls it.
        caller: &'a str,
    },
    #[error("`{0}` is called and has no clause: here it always fails")]
    NoClauseInQuery(&'a str),
    #[error("`{pred}` is called and has no clause, but `{other}` has one")]
    OtherArity {
        pred: &'a str,
        other: &'a str,
    },
    #[error("`{0}` has no value here, so this goal always fails")]
    NoValue(&'a str),
    #[error("the variable {0} occurs only once: write `_` if that is intended")]
    Singleton(&'a str),
    #[error("the variables {0} occur only once: write `_` for each that is intended")]
    Singletons(&'a str),
}
