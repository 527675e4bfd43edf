//! Pairs of a clause and one of its calls.

ghost use Rattle.std.specs.Prelude.{◌≡◌, option_map};
ghost use Rattle.cti_terms.specs.Listing.{numbered};
ghost use Rattle.cert_structure.specs.Shape.{is_own_call, is_pair, vars_of};
ghost use Rattle.cert_structure.specs.Walk.{pair_end, is_before};

use crate::calls::Calls;
use cti_terms::Clause;

/// A pair of a clause and one of its calls, both counted from 1.
#[derive(Clone, Copy)]
pub struct Pair {
    pub clause: u32,
    pub call: u32,
}

impl Pair {
    /// Whether another pair comes after this one: by clauses, and then by calls.
    pub fn is_before(self, other: Pair) -> bool
        ensures { result ≡ is_before (pair_end self) (pair_end other) }
    {
        self.clause < other.clause || (self.clause == other.clause && self.call < other.call)
    }

    /// Whether the clause and the call are of a predicate's component.
    pub fn is_of(self, calls: &Calls, pred: u64) -> bool
        ensures { result ≡ is_pair calls.now.p.now calls.now.comps.now pred self.clause self.call }
    {
        match numbered(calls, self.clause) {
            Some(clause) => {
                calls.together(pred, u64::from(clause.head.pred.0))
                    && is_own_call(calls, pred, clause, self.call)
            }
            None => false,
        }
    }
}

/// The clause of a number, which counts from 1, if it is there.
fn numbered<'a>(calls: &Calls<'a>, clause: u32) -> Option<&'a Clause>
    ensures { option_map (λ c. c.now) result ≡ numbered calls.now.p.now.clauses clause }
{
    if clause >= 1 && clause <= calls.p.clauses() {
        Some(calls.p.clause(clause))
    } else {
        None
    }
}

/// Whether a call of a clause, counted from 1, is there and to a predicate's component.
fn is_own_call(calls: &Calls, pred: u64, clause: &Clause, call: u32) -> bool
    ensures { result ≡ is_own_call calls.now.comps.now pred (numbered clause.now.body call) }
{
    let body = clause.body.as_slice();
    if call >= 1 && call as usize <= body.len() {
        calls.together(pred, u64::from(body[call as usize - 1].pred.0))
    } else {
        false
    }
}

/// How many variables a clause has, which counts from 1.
pub fn vars(calls: &Calls, clause: u32) -> u32
    ensures { result ≡ vars_of (numbered calls.now.p.now.clauses clause) }
{
    match numbered(calls, clause) {
        Some(clause) => clause.vars,
        None => 0,
    }
}
