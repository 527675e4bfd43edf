//! Stuck sets of recursive components, group by group.

ghost use Rattle.std.specs.Prelude.{◌≡◌, map};
ghost use Rattle.cert_structure.specs.Order.{pred_text};
ghost use Rattle.cert_structure.specs.Walk.{is_open, named, pair_end};
ghost use Rattle.fact_reading.specs.Walk.{Agrees, AgreesFact};
ghost use Rattle.prove_parts.specs.Shape.{Ascend};
ghost use Rattle.prove_structure.specs.Walk.{read_group, read_groups, read_set, read_stuck, scan};
ghost use Rattle.prove_structure.specs.Walk.{take_count, take_group};

use crate::pairs::group_pairs;
use crate::points::{floor, points};
use cert_structure::{Calls, Named, Pair, count_of};
use cti_terms::Names;
use fact_reading::{FactFault, Kind, Reader, Stop, StructureReason, first_item, wrong};
use number_tests::LevelPart;
use prove_certificate::ProveFact;
use prove_parts::{StuckGroup, StuckSet};
use sequences::Sequence;
use std::alloc::Global;

/// The fact of a group of a predicate's component, after another pair.
#[derive(Drop)]
struct GroupFact<'a> {
    calls: Calls<'a>,
    pred: u64,
    last: Pair,
}

impl Kind<ProveFact> for GroupFact<'_> {
    type Item = (u32, u32);

    ghost takes = { λ r number fact. take_group r.calls.p.now r.calls.comps.now r.pred (pair_end r.last) number fact };

    #[tactic(auto, unfolding(crate::specs::Walk::take_group))]
    fn take(
        &self,
        _alloc: Global,
        _number: u64,
        fact: &ProveFact,
    ) -> Result<Option<(u32, u32)>, FactFault> {
        let ProveFact::Group { clause, call } = fact else {
            return Ok(None);
        };
        let pair = Pair {
            clause: *clause,
            call: *call,
        };
        if pair.is_of(&self.calls, self.pred) && self.last.is_before(pair) {
            Ok(Some((*clause, *call)))
        } else {
            Ok(None)
        }
    }
}

/// The groups of a component, of which one has these pairs.
#[derive(Clone, Copy)]
struct Groups<'a> {
    calls: Calls<'a>,
    pred: u64,
    pairs: &'a [Pair],
}

impl Groups<'_> {
    /// The group in front, after another pair.
    #[tactic(auto, unfolding(crate::specs::Walk::read_group))]
    fn read_group<'f>(
        &self,
        alloc: Global,
        last: Pair,
        facts: &'f [ProveFact],
    ) -> Result<(StuckGroup, &'f [ProveFact]), Stop>
        requires { Ascend pair_end (0, 0) self.now.pairs.now }
        ensures { Agrees result (read_group self.now.calls.p.now self.now.calls.comps.now self.now.pred
            (map pair_end self.now.pairs.now) (pair_end last) facts.now) }
    {
        let fact = GroupFact {
            calls: self.calls,
            pred: self.pred,
            last,
        };
        let ((clause, call), rest) = first_item(alloc, &fact, 0, facts)?;
        let (points, rest) = points(alloc, &self.calls, self.pairs, rest)?;
        let (floor, rest) = floor(alloc, &self.calls, Pair { clause, call }, rest)?;
        Ok((
            StuckGroup {
                clause,
                call,
                points,
                floor,
            },
            rest,
        ))
    }

    /// The next `count` groups.
    fn read_groups<'f>(
        &self,
        alloc: Global,
        count: u64,
        facts: &'f [ProveFact],
    ) -> Result<(Sequence<StuckGroup>, &'f [ProveFact]), Stop>
        requires { Ascend pair_end (0, 0) self.now.pairs.now }
        ensures { Agrees result (read_groups self.now.calls.p.now self.now.calls.comps.now
            self.now.pred (map pair_end self.now.pairs.now) (0, 0) count facts.now) }
    {
        let mut groups = Sequence::new(alloc);
        let mut rest = facts;
        let mut last = Pair { clause: 0, call: 0 };
        for _ in 0..count {
            let (group, after) = self.read_group(alloc, last, rest)?;
            last = Pair {
                clause: group.clause,
                call: group.call,
            };
            groups.push(group)?;
            rest = after;
        }
        Ok((groups, rest))
    }
}

/// The number of groups that a fact says, where it begins the stuck set of a predicate.
#[tactic(auto, unfolding(crate::specs::Walk::take_count))]
fn count(pred: Named, fact: &ProveFact) -> Result<Option<u64>, FactFault>
    ensures { AgreesFact result (take_count (named pred.entry) fact.now) }
{
    let ProveFact::Refuted { pred: own, groups } = fact else {
        return Ok(None);
    };
    if !pred.is(own) {
        return Ok(None);
    }
    if *groups == 0 {
        return Err(FactFault::Shape);
    }
    Ok(Some(*groups))
}

/// The groups that the first fact begins, if it begins those of a predicate's component.
#[tactic(auto, unfolding(crate::specs::Walk::read_set))]
fn stuck_set<'f>(
    alloc: Global,
    calls: &Calls,
    names: &Names,
    pred: u64,
    facts: &'f [ProveFact],
) -> Result<(Option<StuckSet>, &'f [ProveFact]), Stop>
    ensures { Agrees result (read_set calls.now.p.now calls.now.comps.now pred
        (pred_text calls.now.p.now names.now pred) facts.now) }
{
    let Some((first, rest)) = facts.split_first() else {
        return Ok((None, facts));
    };
    match count(Named::new(calls.p, names, pred), first) {
        Ok(Some(count)) => {
            let (groups, rest) = counted_groups(alloc, calls, pred, count, rest)?;
            Ok((Some(StuckSet { groups }), rest))
        }
        Ok(None) => Ok((None, facts)),
        Err(FactFault::Shape) => Err(wrong(facts, StructureReason::Shape)),
        Err(FactFault::Memory) => Err(Stop::Memory),
    }
}

/// The next `count` groups of a component.
fn counted_groups<'f>(
    alloc: Global,
    calls: &Calls,
    pred: u64,
    count: u64,
    facts: &'f [ProveFact],
) -> Result<(Sequence<StuckGroup>, &'f [ProveFact]), Stop>
    ensures { Agrees result (read_groups calls.now.p.now calls.now.comps.now pred
        (scan (0, 0) count facts.now) (0, 0) count facts.now) }
{
    let pairs = group_pairs(alloc, count, facts)?;
    let groups = Groups {
        calls: *calls,
        pred,
        pairs: pairs.as_slice(),
    };
    groups.read_groups(alloc, count, facts)
}

/// The stuck sets, one at most for each predicate.
#[derive(Drop)]
pub(crate) struct StuckSets<'a> {
    pub(crate) calls: Calls<'a>,
    pub(crate) names: &'a Names,
    pub(crate) lists: &'a [Sequence<Sequence<LevelPart>>],
}

impl StuckSets<'_> {
    /// Whether a predicate is the first one of a recursive component without lists.
    fn is_open(&self, pred: u64) -> bool
        ensures { result ≡ is_open self.now.calls.comps.now self.now.lists.now pred }
    {
        self.calls.recursive(pred)
            && self.calls.first(pred) == pred
            && count_of(self.lists, pred) == 0
    }
}

impl Reader<ProveFact> for StuckSets<'_> {
    type Item = Option<StuckSet>;

    ghost reads = { λ r number facts. read_stuck r.calls.p.now r.names.now r.calls.comps.now r.lists.now number facts };

    #[tactic(auto, unfolding(crate::specs::Walk::read_stuck))]
    fn read<'f>(
        &self,
        alloc: Global,
        number: u64,
        facts: &'f [ProveFact],
    ) -> Result<(Option<StuckSet>, &'f [ProveFact]), Stop> {
        if self.is_open(number) {
            stuck_set(alloc, &self.calls, self.names, number, facts)
        } else {
            Ok((None, facts))
        }
    }
}
