//! The points and the floor of a group.

ghost use Rattle.std.specs.Prelude.{◌≡◌, ◌*◌, map, option_map};
ghost use Rattle.cert_structure.specs.Walk.{AgreesKept, pair_end};
ghost use Rattle.fact_reading.specs.Walk.{Agrees, AgreesFact};
ghost use Rattle.prove_parts.specs.Shape.{Ascend};
ghost use Rattle.prove_structure.specs.Walk.{read_floor, read_points, take_floor, take_point, values_of};

use crate::numbers::point;
use crate::pairs::{is_among, is_same};
use cert_structure::{Calls, Pair, vars};
use fact_reading::{FactFault, Stop, StructureReason, wrong};
use linear_rows::Point;
use prove_certificate::ProveFact;
use prove_parts::GroupPoint;
use sequences::Sequence;
use std::alloc::Global;

/// How many values the variables of a clause have, which counts from 1.
fn values(calls: &Calls, clause: u32) -> u128
    ensures { result ≡ values_of calls.now.p.now clause }
{
    u128::from(vars(calls, clause)) * 3
}

/// The point of a fact, where it is one of these pairs, after another pair.
#[tactic(auto, unfolding(crate::specs::Walk::take_point))]
fn taken_point(
    alloc: Global,
    calls: &Calls,
    pairs: &[Pair],
    last: Pair,
    fact: &ProveFact,
) -> Result<Option<GroupPoint>, FactFault>
    requires { Ascend pair_end (0, 0) pairs.now }
    ensures { AgreesFact result
        (take_point calls.now.p.now (map pair_end pairs.now) (pair_end last) fact.now) }
{
    let ProveFact::Point { clause, call, t, w } = fact else {
        return Ok(None);
    };
    let pair = Pair {
        clause: *clause,
        call: *call,
    };
    if !is_among(pairs, pair) || !last.is_before(pair) {
        return Ok(None);
    }
    let point = point(alloc, values(calls, pair.clause), *t, w.as_slice())?;
    Ok(Some(GroupPoint {
        clause: pair.clause,
        call: pair.call,
        point,
    }))
}

/// The points in front, of these pairs, as long as they ascend.
pub(crate) fn points<'f>(
    alloc: Global,
    calls: &Calls,
    pairs: &[Pair],
    facts: &'f [ProveFact],
) -> Result<(Sequence<GroupPoint>, &'f [ProveFact]), Stop>
    requires { Ascend pair_end (0, 0) pairs.now }
    ensures { Agrees result
        (read_points calls.now.p.now (map pair_end pairs.now) (0, 0) facts.now) }
{
    let mut points = Sequence::new(alloc);
    let mut rest = facts;
    let mut last = Pair { clause: 0, call: 0 };
    while let Some((fact, after)) = rest.split_first() {
        match taken_point(alloc, calls, pairs, last, fact) {
            Ok(Some(point)) => {
                last = Pair {
                    clause: point.clause,
                    call: point.call,
                };
                points.push(point)?;
            }
            Ok(None) => return Ok((points, rest)),
            Err(FactFault::Shape) => return Err(wrong(rest, StructureReason::Shape)),
            Err(FactFault::Memory) => return Err(Stop::Memory),
        }
        rest = after;
    }
    Ok((points, rest))
}

/// The values of a fact, where it is the floor of a pair.
#[tactic(auto, unfolding(crate::specs::Walk::take_floor))]
fn taken_floor(
    alloc: Global,
    calls: &Calls,
    pair: Pair,
    fact: &ProveFact,
) -> Result<Option<Point>, FactFault>
    ensures { AgreesFact result (take_floor calls.now.p.now (pair_end pair) fact.now) }
{
    let ProveFact::Floor { clause, call, t, w } = fact else {
        return Ok(None);
    };
    let own = Pair {
        clause: *clause,
        call: *call,
    };
    if !is_same(pair, own) {
        return Ok(None);
    }
    Ok(Some(point(alloc, values(calls, own.clause), *t, w.as_slice())?))
}

/// The floor of a pair, if it stands in front.
#[tactic(auto, unfolding(crate::specs::Walk::read_floor))]
pub(crate) fn floor<'f>(
    alloc: Global,
    calls: &Calls,
    pair: Pair,
    facts: &'f [ProveFact],
) -> Result<(Option<Point>, &'f [ProveFact]), Stop>
    ensures { Agrees result (read_floor calls.now.p.now (pair_end pair) facts.now) }
{
    let Some((first, rest)) = facts.split_first() else {
        return Ok((None, facts));
    };
    match taken_floor(alloc, calls, pair, first) {
        Ok(Some(point)) => Ok((Some(point), rest)),
        Ok(None) => Ok((None, facts)),
        Err(FactFault::Shape) => Err(wrong(facts, StructureReason::Shape)),
        Err(FactFault::Memory) => Err(Stop::Memory),
    }
}
