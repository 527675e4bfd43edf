//! The points of pairs in a certificate of mappings, of which each pair has one or two.

ghost use Rattle.cert_structure.specs.Walk.{pair_end, take_point, take_second, read_second, read_point};
ghost use Rattle.fact_reading.specs.Walk.{Agrees};

use crate::calls::Calls;
use crate::numbers::scaled_point;
use crate::pair::{Pair, vars};
use crate::refutations::PointFacts;
use certificate::Fact;
use fact_reading::{FactFault, Kind, Stop, first_item};
use linear_rows::Point;
use number_tests::PairPoint;
use std::alloc::Global;

/// A pair with its first point.
#[derive(Drop)]
pub(crate) struct FirstPoint {
    pub(crate) pair: Pair,
    pub(crate) point: Point,
}

/// The fact of the first point of a pair of a predicate's component, after another pair.
#[derive(Drop)]
struct PointFact<'a> {
    calls: Calls<'a>,
    pred: u64,
    last: Pair,
}

impl Kind<Fact> for PointFact<'_> {
    type Item = FirstPoint;

    ghost takes = { λ r number fact. take_point r.calls.p.now r.calls.comps.now r.pred (pair_end r.last) number fact };

    #[tactic(auto, unfolding(crate::specs::Walk::take_point))]
    fn take(
        &self,
        alloc: Global,
        _number: u64,
        fact: &Fact,
    ) -> Result<Option<FirstPoint>, FactFault> {
        let Fact::Point { clause, call, t, w } = fact else {
            return Ok(None);
        };
        let pair = Pair {
            clause: *clause,
            call: *call,
        };
        if !pair.is_of(&self.calls, self.pred) || !self.last.is_before(pair) {
            return Ok(None);
        }
        let point = scaled_point(alloc, vars(&self.calls, pair.clause), *t, w.as_slice())?;
        Ok(Some(FirstPoint { pair, point }))
    }
}

/// The fact of the second point of a pair.
#[derive(Drop)]
struct SecondFact {
    pair: Pair,
    vars: u32,
}

impl Kind<Fact> for SecondFact {
    type Item = Point;

    ghost takes = { λ r number fact. take_second (pair_end r.pair) r.vars number fact };

    #[tactic(auto, unfolding(crate::specs::Walk::take_second))]
    fn take(&self, alloc: Global, _number: u64, fact: &Fact) -> Result<Option<Point>, FactFault> {
        let Fact::At { clause, call, t, w } = fact else {
            return Ok(None);
        };
        if *clause != self.pair.clause || *call != self.pair.call {
            return Ok(None);
        }
        if *t == 0 {
            return Err(FactFault::Shape);
        }
        Ok(Some(scaled_point(alloc, self.vars, *t, w.as_slice())?))
    }
}

/// A pair with its points, where the first is read.
#[tactic(auto, unfolding(crate::specs::Walk::read_second))]
fn second<'f>(
    alloc: Global,
    calls: &Calls,
    first: FirstPoint,
    facts: &'f [Fact],
) -> Result<(PairPoint, &'f [Fact]), Stop>
    ensures { Agrees result (read_second calls.now.p.now first facts.now) }
{
    let FirstPoint { pair, point } = first;
    let (at, rest) = if point.t == 0 {
        let fact = SecondFact {
            pair,
            vars: vars(calls, pair.clause),
        };
        let (at, rest) = first_item(alloc, &fact, 0, facts)?;
        (Some(at), rest)
    } else {
        (None, facts)
    };
    Ok((
        PairPoint {
            clause: pair.clause,
            call: pair.call,
            point,
            at,
        },
        rest,
    ))
}

impl PointFacts for Fact {
    ghost read_point = { read_point };

    #[tactic(auto, unfolding(crate::specs::Walk::read_point))]
    fn read_point<'f>(
        alloc: Global,
        calls: &Calls,
        pred: u64,
        last: Pair,
        facts: &'f [Fact],
    ) -> Result<(PairPoint, &'f [Fact]), Stop> {
        let fact = PointFact {
            calls: *calls,
            pred,
            last,
        };
        let (first, rest) = first_item(alloc, &fact, 0, facts)?;
        second(alloc, calls, first, rest)
    }
}
