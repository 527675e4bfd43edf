//! Refutations of recursive components.

ghost use Rattle.std.specs.Prelude.{◌≡◌, ℕ};
ghost use Rattle.call_components.specs.Partition.{Partition};
ghost use Rattle.cert_structure.specs.Order.{pred_text};
ghost use Rattle.cert_structure.specs.Walk.{ReadsPoint, named, pair_end, is_open, shared_refuted, read_points, group_by, refutation_by};
ghost use Rattle.cti_terms.specs.Listing.{Listing};
ghost use Rattle.fact_reading.specs.Walk.{Agrees};

use crate::calls::Calls;
use crate::items::count_of;
use crate::named::Named;
use crate::pair::Pair;
use crate::shared_fact::{AsShared, SharedFact};
use cti_terms::Names;
use fact_reading::{FactFault, Kind, Reader, Stop, StructureReason, wrong};
use number_tests::{PairPoint, Refutation};
use sequences::Sequence;
use std::alloc::Global;

/// A fact of a kind of certificate in which points of pairs show that a component has no mapping, or no list.
pub trait PointFacts: AsShared {
    /// How the next pair of a predicate's component is read.
    ghost read_point: { Listing → Partition → ℕ → ReadsPoint Self };

    /// The next pair of a predicate's component with its points, which has to come after another pair.
    fn read_point<'f>(
        alloc: Global,
        calls: &Calls,
        pred: u64,
        last: Pair,
        facts: &'f [Self],
    ) -> Result<(PairPoint, &'f [Self]), Stop>
        ensures { Agrees result
            (read_point calls.now.p.now calls.now.comps.now pred (pair_end last) facts.now) };
}

/// The next `count` pairs of a predicate's component with their points.
fn points<'f, F: PointFacts>(
    alloc: Global,
    calls: &Calls,
    pred: u64,
    count: u64,
    facts: &'f [F],
) -> Result<(Sequence<PairPoint>, &'f [F]), Stop>
    ensures { Agrees result
        (read_points (F.read_point calls.now.p.now calls.now.comps.now pred) (0, 0) count facts.now) }
{
    let mut points = Sequence::new(alloc);
    let mut rest = facts;
    let mut last = Pair { clause: 0, call: 0 };
    for _ in 0..count {
        let (point, after) = F::read_point(alloc, calls, pred, last, rest)?;
        last = Pair {
            clause: point.clause,
            call: point.call,
        };
        points.push(point)?;
        rest = after;
    }
    Ok((points, rest))
}

/// The fact that begins the points which show that a component has no mapping, or no list, and says how many there are.
#[derive(Drop)]
struct RefutedFact<'a> {
    pred: Named<'a>,
}

impl<F: AsShared> Kind<F> for RefutedFact<'_> {
    type Item = u64;

    ghost takes = { λ r number fact. shared_refuted (named r.pred) number (F.shared fact) };

    #[tactic(auto, unfolding(crate::specs::Walk::shared_refuted))]
    fn take(&self, _alloc: Global, _number: u64, fact: &F) -> Result<Option<u64>, FactFault> {
        let SharedFact::Refuted { pred, points } = fact.as_shared() else {
            return Ok(None);
        };
        if !self.pred.is(pred) {
            return Ok(None);
        }
        if points == 0 {
            return Err(FactFault::Shape);
        }
        Ok(Some(points))
    }
}

/// The refutations or the stuck sets, one at most for each predicate.
#[derive(Drop)]
pub struct Refutations<'a, T> {
    pub calls: Calls<'a>,
    pub names: &'a Names,
    /// What each predicate has in each mapping, or in each list.
    pub levels: &'a [Sequence<T>],
}

impl<T> Refutations<'_, T> {
    /// Whether a predicate is the first one of a recursive component without mappings, or without lists.
    fn is_open(&self, pred: u64) -> bool
        ensures { result ≡ is_open self.now.calls.comps.now self.now.levels.now pred }
    {
        self.calls.recursive(pred)
            && self.calls.first(pred) == pred
            && count_of(self.levels, pred) == 0
    }
}

/// The points that the first fact begins, if it begins those of a predicate's component.
#[tactic(auto, unfolding(crate::specs::Walk::group_by))]
fn group<'f, F: PointFacts>(
    alloc: Global,
    calls: &Calls,
    names: &Names,
    pred: u64,
    facts: &'f [F],
) -> Result<(Option<Refutation>, &'f [F]), Stop>
    ensures { Agrees result (group_by F.shared (F.read_point calls.now.p.now calls.now.comps.now pred)
        (pred_text calls.now.p.now names.now pred) facts.now) }
{
    let Some((first, rest)) = facts.split_first() else {
        return Ok((None, facts));
    };
    let fact = RefutedFact {
        pred: Named::new(calls.p, names, pred),
    };
    match fact.take(alloc, 0, first) {
        Ok(Some(count)) => {
            let (points, rest) = points(alloc, calls, pred, count, rest)?;
            Ok((Some(Refutation { points }), rest))
        }
        Ok(None) => Ok((None, facts)),
        Err(FactFault::Shape) => Err(wrong(facts, StructureReason::Shape)),
        Err(FactFault::Memory) => Err(Stop::Memory),
    }
}

impl<F: PointFacts, T> Reader<F> for Refutations<'_, T> {
    type Item = Option<Refutation>;

    ghost reads = { λ r number facts. refutation_by F.shared
        (F.read_point r.calls.p.now r.calls.comps.now number)
        r.calls.p.now r.names.now r.calls.comps.now r.levels.now number facts };

    #[tactic(auto, unfolding(crate::specs::Walk::refutation_by))]
    fn read<'f>(
        &self,
        alloc: Global,
        number: u64,
        facts: &'f [F],
    ) -> Result<(Option<Refutation>, &'f [F]), Stop> {
        if self.is_open(number) {
            group(alloc, &self.calls, self.names, number, facts)
        } else {
            Ok((None, facts))
        }
    }
}
