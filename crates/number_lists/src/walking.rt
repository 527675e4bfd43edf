//! The walk over the sets of positions, the smaller ones first.

ghost use Rattle.std.specs.Prelude.{◌≡◌, ◌||◌, ◌<◌, ◌^◌, ◌+◌, ℕ, IfOk, Some, length, map, slice_get, suc, take, true};
ghost use Rattle.std.specs.List.{AllByRecursion, list_any};
ghost use Rattle.number_lists.specs.Found.{AreVoid, IsVoid};
ghost use Rattle.number_lists.specs.Systems.{ForSystem};
ghost use Rattle.number_lists.specs.Walked.{IsAllWalked, IsWalkedTo};
ghost use Rattle.number_turns.specs.Recalled.{HasNumbers, recalled};
ghost use Rattle.termination_model.specs.grounds.Modes.{chosen_up_to, is_part};

use crate::course::Within;
use crate::measure_list::MeasureList;
use crate::searching::find_at;
use crate::system::System;
use level_dual::{copied, is_above, is_below, without_number};
use sequences::Sequence;
use std::alloc::{AllocError, Global};
use termination_model::number_sets;

/// The minimal supports that were found, each with its list, and the sets that were given up.
#[derive(Drop)]
pub(crate) struct Walked {
    pub(crate) found: Sequence<Sequence<u32>>,
    pub(crate) lists: Sequence<MeasureList>,
    pub(crate) blown: Sequence<Sequence<u32>>,
}

/// Whether a set is above one that was found, or above one that was given up.
fn is_passed(walked: &Walked, set: &[u32]) -> bool
    ensures { result ≡ (list_any (λ t. is_part t set.now) walked.now.found
        || list_any (λ t. is_part t set.now) walked.now.blown) }
{
    is_above(walked.found.as_slice(), set) || is_above(walked.blown.as_slice(), set)
}

/// Whether no list descends at a set.
fn is_void(alloc: Global, system: &System<'_>, set: &[u32]) -> Result<bool, AllocError>
    requires { AllByRecursion HasNumbers (map recalled system.now.transitions.now) }
    ensures { IfOk result (λ void. void ≡ true
        → ForSystem system.now (λ members positions τs width.
        IsVoid members positions τs width set.now)) }
{
    match find_at(alloc, system, set)? {
        Within::Nothing(_) => Ok(true),
        Within::List(_) => Ok(false),
        Within::GivenUp => Ok(false),
    }
}

/// The sets of all positions but one at which no list descends.
fn void_sets(
    alloc: Global,
    system: &System<'_>,
    full: &[u32],
) -> Result<Sequence<Sequence<u32>>, AllocError>
    requires { AllByRecursion HasNumbers (map recalled system.now.transitions.now) }
    ensures { IfOk result (λ sets. ForSystem system.now (λ members positions τs width.
        AreVoid members positions τs width sets)) }
{
    let mut sets = Sequence::new(alloc);
    for number in full {
        let set = without_number(alloc, full, *number)?;
        if is_void(alloc, system, set.as_slice())? {
            sets.push(set)?;
        }
    }
    Ok(sets)
}

/// Searches at one more set, unless it is above one that was found or given up, or part of one at which no list
/// descends.
fn visit(
    alloc: Global,
    system: &System<'_>,
    void: &[Sequence<u32>],
    set: &[u32],
    walked: &mut Walked,
) -> Result<(), AllocError>
    requires { AllByRecursion HasNumbers (map recalled system.now.transitions.now) }
    ensures { IfOk result (λ done. ForSystem system.now (λ members positions τs width. (i : ℕ)
        → slice_get (chosen_up_to (length positions) (length positions)) i ≡ Some set.now
        → AreVoid members positions τs width void.now
        → IsWalkedTo members positions τs width
        (take i (chosen_up_to (length positions) (length positions))) walked.old
        → IsWalkedTo members positions τs width
        (take (suc i) (chosen_up_to (length positions) (length positions))) walked.new)) }
{
    if is_passed(walked, set) {
        return Ok(());
    }
    if is_below(void, set) {
        return Ok(());
    }
    match find_at(alloc, system, set)? {
        Within::List(list) => {
            walked.found.push(copied(alloc, set)?)?;
            walked.lists.push(list)?;
        }
        Within::Nothing(_) => {}
        Within::GivenUp => walked.blown.push(copied(alloc, set)?)?,
    }
    Ok(())
}

/// Searches at all sets of positions but for those above one that was found or given up.
///
/// Where no list descends without some position, the sets without it are passed over.
pub(crate) fn walk(
    alloc: Global,
    system: &System<'_>,
    full: &[u32],
    last: u32,
) -> Result<Walked, AllocError>
    requires numbers { AllByRecursion HasNumbers (map recalled system.now.transitions.now) }
    requires last { last ≡ length system.now.positions.now }
    requires small { last + 1 < 2 ^ 32 }
    ensures { IfOk result (λ walked. ForSystem system.now (λ members positions τs width.
        IsAllWalked members positions τs width walked)) }
{
    let void = void_sets(alloc, system, full)?;
    let mut walked = Walked {
        found: Sequence::new(alloc),
        lists: Sequence::new(alloc),
        blown: Sequence::new(alloc),
    };
    let sets = number_sets(alloc, last)?;
    for set in sets.as_slice() {
        visit(alloc, system, void.as_slice(), set.as_slice(), &mut walked)?;
    }
    Ok(walked)
}
