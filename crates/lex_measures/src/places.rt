//! The lists of a component, predicate by predicate and call by call.

ghost use Rattle.std.specs.Prelude.{◌≡◌, ◌<◌, ◌+◌, IfOk, IsTrue, length, map};
ghost use Rattle.std.specs.List.{AllByRecursion};
ghost use Rattle.cert_structure.specs.Shape.{arity_in};
ghost use Rattle.lex_measures.specs.Lists.{AreDropsAt, ArePassed, IsPassed, list_of, place_of};

use cert_assembly::part_of;
use cti_terms::{PredId, Program};
use lex_turns::MeasureList;
use linear_rows::{Multipliers, copied_multipliers};
use number_tests::LevelPart;
use sequences::Sequence;
use std::alloc::{AllocError, Global};

/// The parts of a predicate in the mappings of a list; zeros, where a mapping has none.
fn list_of(
    alloc: Global,
    p: &Program,
    list: &MeasureList,
    q: PredId,
) -> Result<Sequence<LevelPart>, AllocError>
    requires { q.0 < length p.now.preds }
    ensures { IfOk result (λ parts. parts ≡ list_of (arity_in p.now q.0) q.0 list.now) }
{
    let mut parts = Sequence::new(alloc);
    for measures in list.measures.as_slice() {
        parts.push(part_of(alloc, p, measures.as_slice(), q)?)?;
    }
    Ok(parts)
}

/// The parts of a predicate in lists.
pub(crate) fn lists_of(
    alloc: Global,
    p: &Program,
    lists: &[MeasureList],
    q: PredId,
) -> Result<Sequence<Sequence<LevelPart>>, AllocError>
    requires { q.0 < length p.now.preds }
    ensures { IfOk result (λ parts. parts ≡ map (list_of (arity_in p.now q.0) q.0) lists.now) }
{
    let mut parts = Sequence::new(alloc);
    for list in lists {
        parts.push(list_of(alloc, p, list, q)?)?;
    }
    Ok(parts)
}

/// The multipliers of a call up to its place in a list; none, where the list has none. Clauses and calls count from 1.
fn place_of(
    alloc: Global,
    list: &MeasureList,
    clause: u32,
    call: u32,
) -> Result<Sequence<Multipliers>, AllocError>
    ensures { IfOk result (λ bys. bys ≡ place_of clause call list.now) }
{
    for drops in list.drops.as_slice() {
        if drops.clause == clause && drops.call == call {
            return copied_multipliers(alloc, drops.by.as_slice());
        }
    }
    Ok(Sequence::new(alloc))
}

/// The multipliers of a call up to its place in a list, first looked for at an index before which all drops are of
/// earlier calls; none, where the list has none.
fn place_at(
    alloc: Global,
    list: &MeasureList,
    at: usize,
    clause: u32,
    call: u32,
) -> Result<Sequence<Multipliers>, AllocError>
    requires { IsPassed list.now.drops at clause call }
    ensures { IfOk result (λ bys. bys ≡ place_of clause call list.now) }
{
    match list.drops.as_slice().get(at) {
        Some(drops) if drops.clause == clause && drops.call == call => {
            copied_multipliers(alloc, drops.by.as_slice())
        }
        _ => place_of(alloc, list, clause, call),
    }
}

/// Whether each list has the drops of a call at an index.
fn are_at(lists: &[MeasureList], at: usize, clause: u32, call: u32) -> bool
    ensures { IsTrue result → AllByRecursion (λ l. AreDropsAt l.drops at clause call) lists.now }
{
    for list in lists {
        match list.drops.as_slice().get(at) {
            Some(drops) if drops.clause == clause && drops.call == call => {}
            _ => return false,
        }
    }
    true
}

/// The index after the drops of a call, where they stand at this one.
pub(crate) fn after_call(lists: &[MeasureList], at: usize, clause: u32, call: u32) -> usize
    requires { ArePassed lists.now at clause call }
    ensures { ArePassed lists.now result clause (call + 1) }
{
    if are_at(lists, at, clause, call) {
        at.saturating_add(1)
    } else {
        at
    }
}

/// The multipliers of a call in lists, where all drops before an index are of earlier calls. Clauses and calls count
/// from 1.
pub(crate) fn places_of(
    alloc: Global,
    lists: &[MeasureList],
    at: usize,
    clause: u32,
    call: u32,
) -> Result<Sequence<Sequence<Multipliers>>, AllocError>
    requires { ArePassed lists.now at clause call }
    ensures { IfOk result (λ places. places ≡ map (place_of clause call) lists.now) }
{
    let mut places = Sequence::new(alloc);
    for list in lists {
        places.push(place_at(alloc, list, at, clause, call)?)?;
    }
    Ok(places)
}
