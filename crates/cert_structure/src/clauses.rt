//! The parts of clauses by their numbers.

ghost use Rattle.std.specs.Prelude.{◌≡◌, slice_get, option_map};
ghost use Rattle.cert_structure.specs.Shape.{head_of, body_of};

use cti_terms::{Atom, Clause, PredId, Program};

/// The clause of a number, which counts from 0 here, if it is there.
fn clause_at(p: &Program, number: u64) -> Option<&Clause>
    ensures { option_map (λ c. c.now) result ≡ slice_get p.now.clauses number }
{
    if number < u64::from(p.clauses()) {
        Some(p.clause(number as u32 + 1))
    } else {
        None
    }
}

/// The predicate of a clause's head; 0 where there is no clause.
pub fn head_at(p: &Program, number: u64) -> PredId
    ensures { result.0 ≡ head_of p.now number }
{
    match clause_at(p, number) {
        Some(clause) => clause.head.pred,
        None => PredId(0),
    }
}

/// The body of a clause; empty where there is no clause.
pub fn body_at(p: &Program, number: u64) -> &[Atom]
    ensures { result.now ≡ body_of p.now number }
{
    match clause_at(p, number) {
        Some(clause) => clause.body.as_slice(),
        None => &[],
    }
}
