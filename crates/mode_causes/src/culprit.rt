//! The one call of a refutation that refutes by itself.
//!
//! A refutation names pairs of a clause's head and a call, with values of the clause's variables that the rows before
//! the call allow. Where no argument of the call is smaller there than that of the head, no measure falls at this call.
//! A call in a disjunction's branch is looked at from the clause that has the disjunction, where the values agree.

use crate::finding_causes::View;
use crate::sizing::{Point, Sizing};
use certificate::Fact;
use cti_terms::{Atom, Term};

/// How many points of a refutation are looked at.
const MOST_POINTS: u64 = 100;

/// How many disjunctions, one within the other, are left for the clause around them.
const MOST_LEVELS: u32 = 8;

/// The call at which nothing gets smaller: the fact whose clause has the head, and the one whose clause has the call,
/// which is a branch of a disjunction of the other where it is not the same.
#[derive(Clone, Copy)]
pub struct Culprit {
    pub head: usize,
    pub call: usize,
}

/// A pair of a refutation.
#[derive(Clone, Copy)]
struct Pair<'p, 'f> {
    head: &'p Atom,
    call: &'p Atom,
    /// The point, and where it is a direction, a point that it leads on from.
    at: Point<'f>,
    from: Point<'f>,
}

/// The size of a term at a point, multiplied by a number.
fn scaled(sizing: Sizing<'_>, term: &Term, at: Point<'_>, by: i128) -> Option<i128> {
    sizing.size_at(term, at)?.checked_mul(by)
}

/// The sizes of two terms, each at its own point, brought to one `t`.
fn sizes(
    sizing: Sizing<'_>,
    (one, at): (&Term, Point<'_>),
    (other, there): (&Term, Point<'_>),
) -> Option<(i128, i128)> {
    let first = scaled(sizing, one, at, there.t)?;
    let second = scaled(sizing, other, there, at.t)?;
    Some((first, second))
}

/// Whether no argument of a list at a point is larger than the one of the other list at its own point.
fn are_at_most(
    sizing: Sizing<'_>,
    (heads, at): (&[Term], Point<'_>),
    (calls, there): (&[Term], Point<'_>),
) -> bool {
    for (head, call) in heads.iter().zip(calls.iter()) {
        match sizes(sizing, (head, at), (call, there)) {
            Some((size, larger)) if size <= larger => {}
            _ => return false,
        }
    }
    true
}

impl Pair<'_, '_> {
    /// Whether an argument gets no smaller from the head to the call, far enough along a direction.
    fn keeps(self, sizing: Sizing<'_>, head: &Term, call: &Term) -> bool {
        let size = sizing.size_at(head, self.at);
        let next = sizing.size_at(call, self.at);
        match (size, next) {
            (Some(size), Some(next)) if size == next => {
                match (
                    sizing.size_at(head, self.from),
                    sizing.size_at(call, self.from),
                ) {
                    (Some(size), Some(next)) => size <= next,
                    _ => false,
                }
            }
            (Some(size), Some(next)) => size < next,
            _ => false,
        }
    }

    /// Whether no argument gets smaller at this call of the head's own predicate.
    fn refutes(self, sizing: Sizing<'_>) -> bool {
        if self.head.pred != self.call.pred || self.from.t < 1 {
            return false;
        }
        let calls = self.call.args.as_slice().iter();
        for (head, call) in self.head.args.as_slice().iter().zip(calls) {
            if !self.keeps(sizing, head, call) {
                return false;
            }
        }
        true
    }

    /// Whether the call has just the values that the head of a branch has, both at points.
    fn leads_to(self, sizing: Sizing<'_>, branch: Pair<'_, '_>) -> bool {
        if self.call.pred != branch.head.pred || self.at.t < 1 || branch.at.t < 1 {
            return false;
        }
        let call = (self.call.args.as_slice(), self.at);
        let head = (branch.head.args.as_slice(), branch.at);
        are_at_most(sizing, call, head) && are_at_most(sizing, head, call)
    }

    /// Whether no argument gets smaller from this head to the call of a branch that it leads to.
    fn refutes_by(self, sizing: Sizing<'_>, branch: Pair<'_, '_>) -> bool {
        let head = (self.head.args.as_slice(), self.at);
        let call = (branch.call.args.as_slice(), branch.at);
        self.head.pred == branch.call.pred && are_at_most(sizing, head, call)
    }
}

impl<'p, 'f> View<'p, '_, 'f> {
    /// The pair of a point.
    fn pair(self, place: usize) -> Option<Pair<'p, 'f>> {
        let Some(Fact::Point { clause, call, t, w }) = self.facts.get(place) else {
            return None;
        };
        let clause = self.listed.clause(*clause)?;
        let number = call.checked_sub(1)?;
        let at = Point {
            t: *t,
            values: w.as_slice(),
        };
        let from = match self.facts.get(place.saturating_add(1)) {
            Some(Fact::At { t, w, .. }) => Point {
                t: *t,
                values: w.as_slice(),
            },
            _ => at,
        };
        Some(Pair {
            head: &clause.head,
            call: clause.body.as_slice().get(number as usize)?,
            at,
            from,
        })
    }

    /// Whether the pair of a point leads to a branch.
    fn is_caller(self, place: usize, branch: Pair<'_, '_>) -> bool {
        match self.pair(place) {
            Some(pair) => pair.leads_to(self.sizing(), branch),
            None => false,
        }
    }

    /// The point whose call is the disjunction of a branch, among this many from a fact on. A disjunction has one call.
    fn caller_of(self, branch: Pair<'_, '_>, start: usize, points: u64) -> Option<usize> {
        let mut place = start;
        let mut left = points.min(MOST_POINTS);
        for fact in self.facts.get(start..).unwrap_or(&[]) {
            if left == 0 {
                return None;
            }
            if let Fact::Point { .. } = fact {
                if self.is_caller(place, branch) {
                    return Some(place);
                }
                left = left.saturating_sub(1);
            }
            place = place.saturating_add(1);
        }
        None
    }

    /// The point of the clause around a branch, or the point itself where its clause is no branch.
    fn outermost(self, place: usize, start: usize, points: u64) -> Option<usize> {
        let mut current = place;
        for _ in 0..MOST_LEVELS {
            let pair = self.pair(current)?;
            if !self.listed.is_disjunction(pair.head.pred.0) {
                return Some(current);
            }
            current = self.caller_of(pair, start, points)?;
        }
        None
    }

    /// The call at which the point of a fact shows that nothing gets smaller, among this many points from a first one
    /// on.
    fn culprit_at(self, place: usize, start: usize, points: u64) -> Option<Culprit> {
        let pair = self.pair(place)?;
        let head = self.outermost(place, start, points)?;
        let refutes = if head == place {
            pair.refutes(self.sizing())
        } else {
            self.pair(head)?.refutes_by(self.sizing(), pair)
        };
        if refutes {
            let call = place;
            Some(Culprit { head, call })
        } else {
            None
        }
    }

    /// The first call of these points, from this fact on, at which nothing gets smaller whatever the measure is.
    pub fn culprit(self, start: usize, points: u64) -> Option<Culprit> {
        let mut place = start;
        let mut left = points.min(MOST_POINTS);
        for fact in self.facts.get(start..).unwrap_or(&[]) {
            if left == 0 {
                return None;
            }
            if let Fact::Point { .. } = fact {
                if let Some(culprit) = self.culprit_at(place, start, points) {
                    return Some(culprit);
                }
                left = left.saturating_sub(1);
            }
            place = place.saturating_add(1);
        }
        None
    }
}
