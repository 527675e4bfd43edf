//! Why the clauses of a text are not a program.

use std::alloc::AllocError;
use thiserror::Error;

/// What is wrong with a clause.
#[derive(Clone, Copy, Debug, PartialEq, Eq)]
pub enum NormKind {
    /// A predicate would have more than 12 arguments. The place is the atom or the disjunction.
    Arity,
    /// A clause has more than 48 variables.
    ManyVariables,
    /// A goal of a body is a variable, an integer or an impure name, or the clause is a grammar rule.
    NotPure,
    /// The head of a clause is a variable, an integer or a reserved name.
    BadHead,
    /// A directive other than `op` with three arguments and `discontiguous` with one.
    Directive,
    /// With this clause and its branches there would be more than 16,384 clauses.
    ManyClauses,
}

/// Why the clauses of a text are not a program. A place counts bytes from 0.
#[derive(Clone, Copy, Debug, PartialEq, Eq, Error)]
pub enum NormFault {
    /// The clauses are refused, at this place.
    #[error("no program: {kind:?} at byte {at}")]
    Fault { kind: NormKind, at: u32 },
    /// Memory ran out.
    #[error("out of memory")]
    Memory,
}

impl From<AllocError> for NormFault {
    ghost use Rattle.std.specs.Prelude.{◌≡◌};
    ghost use Rattle.clause_normal.specs.declared.fault.NormFault.TheVariants.{Memory};

    ghost from_gives = { λ _ e. e ≡ Memory };

    fn from(_error: AllocError) -> NormFault {
        NormFault::Memory
    }
}
