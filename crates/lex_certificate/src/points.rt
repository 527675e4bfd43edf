//! The points of stuck sets, of which each pair has one.

ghost use Rattle.cert_structure.specs.Walk.{AgreesKept, pair_end};
ghost use Rattle.fact_reading.specs.Walk.{read_next};
ghost use Rattle.lex_certificate.specs.Walk.{take_point, stuck_read};

use crate::fact::LexFact;
use cert_structure::{Calls, Pair, PointFacts, scaled_point, vars};
use fact_reading::{FactFault, Kind, Stop, first_item};
use number_tests::PairPoint;
use std::alloc::Global;

/// A pair with a point whose t is at least 1, and a value for each of `vars` variables.
fn stuck_point(
    alloc: Global,
    pair: Pair,
    vars: u32,
    t: i128,
    w: &[i128],
) -> Result<PairPoint, FactFault>
    ensures { AgreesKept result (stuck_read pair.clause pair.call vars t w.now) }
{
    if t == 0 {
        return Err(FactFault::Shape);
    }
    let point = scaled_point(alloc, vars, t, w)?;
    Ok(PairPoint {
        clause: pair.clause,
        call: pair.call,
        point,
        at: None,
    })
}

/// The fact of a pair of a predicate's component, after another pair.
#[derive(Drop)]
struct PointFact<'a> {
    calls: Calls<'a>,
    pred: u64,
    last: Pair,
}

impl Kind<LexFact> for PointFact<'_> {
    type Item = PairPoint;

    ghost takes = { λ r number fact. take_point r.calls.p.now r.calls.comps.now r.pred (pair_end r.last) number fact };

    #[tactic(auto, unfolding(crate::specs::Walk::take_point))]
    fn take(
        &self,
        alloc: Global,
        _number: u64,
        fact: &LexFact,
    ) -> Result<Option<PairPoint>, FactFault> {
        let LexFact::Point { clause, call, t, w } = fact else {
            return Ok(None);
        };
        let pair = Pair {
            clause: *clause,
            call: *call,
        };
        if !pair.is_of(&self.calls, self.pred) || !self.last.is_before(pair) {
            return Ok(None);
        }
        let vars = vars(&self.calls, pair.clause);
        Ok(Some(stuck_point(alloc, pair, vars, *t, w.as_slice())?))
    }
}

impl PointFacts for LexFact {
    ghost read_point = { λ p comps a last. read_next (take_point p comps a last) 0 };

    fn read_point<'f>(
        alloc: Global,
        calls: &Calls,
        pred: u64,
        last: Pair,
        facts: &'f [LexFact],
    ) -> Result<(PairPoint, &'f [LexFact]), Stop> {
        let fact = PointFact {
            calls: *calls,
            pred,
            last,
        };
        first_item(alloc, &fact, 0, facts)
    }
}
