//! The walk over the sets of positions, the smaller ones first.

ghost use Rattle.std.specs.Prelude.{◌≡◌, ◌||◌, ◌<◌, ◌^◌, ◌+◌, ℕ, Some, suc, IfOk, length, slice_get};
ghost use Rattle.std.specs.List.{list_any};
ghost use Rattle.level_systems.specs.Searched.{IsSound};
ghost use Rattle.level_dual.specs.Components.{ForComponent};
ghost use Rattle.level_dual.specs.Needed.{AreNeeded};
ghost use Rattle.level_dual.specs.Walked.{IsAllWalked, IsWalkedTo};
ghost use Rattle.linear_rows.specs.Step.{columns};
ghost use Rattle.termination_model.specs.grounds.Modes.{chosen_up_to, is_part};

use crate::needed::{needed_positions, walk_needed};
use crate::searching::search;
use crate::walked::Walked;
use cti_terms::Program;
use level_systems::{Answer, Component};
use sequences::Sequence;
use std::alloc::{AllocError, Global};
use termination_model::{is_part, number_sets};

/// Whether some set of a list is part of a set.
pub fn is_above(sets: &[Sequence<u32>], set: &[u32]) -> bool
    ensures { result ≡ list_any (λ t. is_part t set.now) sets.now }
{
    for other in sets {
        if is_part(other.as_slice(), set) {
            return true;
        }
    }
    false
}

/// Whether a set is above one that was found, or above one that was given up.
fn is_passed(walked: &Walked, set: &[u32]) -> bool
    ensures { result ≡ (list_any (λ t. is_part t set.now) walked.now.found
        || list_any (λ t. is_part t set.now) walked.now.blown) }
{
    is_above(walked.found.as_slice(), set) || is_above(walked.blown.as_slice(), set)
}

/// A copy of numbers.
pub fn copied(alloc: Global, set: &[u32]) -> Result<Sequence<u32>, AllocError>
    ensures { IfOk result (λ copy. copy ≡ set.now) }
{
    Ok(Sequence::from_vec(Vec::from_slice(alloc, set)?))
}

/// A copy of sets.
pub fn copied_sets(
    alloc: Global,
    sets: &[Sequence<u32>],
) -> Result<Sequence<Sequence<u32>>, AllocError>
    ensures { IfOk result (λ copy. copy ≡ sets.now) }
{
    let mut copies = Sequence::new(alloc);
    for set in sets {
        copies.push(set.copy(alloc)?)?;
    }
    Ok(copies)
}

/// Searches at one more set, unless it is above one that was found or given up, or lacks a position that is needed.
fn visit(
    alloc: Global,
    p: &Program,
    component: &Component,
    needed: &[u32],
    set: &[u32],
    walked: &mut Walked,
) -> Result<(), AllocError>
    requires sound { IsSound p.now component.now }
    ensures { IfOk result (λ done. ForComponent p.now component.now (λ expression comps rows c.
        (i : ℕ) → slice_get (chosen_up_to (length component.now.positions.items)
        (length component.now.positions.items)) i ≡ Some set.now
        → AreNeeded expression p.now comps rows c
        (columns 1 (length component.now.positions.items)) needed.now
        → IsWalkedTo expression p.now comps rows c
        (length component.now.positions.items) i walked.old
        → IsWalkedTo expression p.now comps rows c (length component.now.positions.items)
        (suc i) walked.new)) }
{
    if is_passed(walked, set) {
        return Ok(());
    }
    if !is_part(needed, set) {
        return Ok(());
    }
    match search(alloc, p, component, set)? {
        Answer::Mapping(mapping) => {
            walked.found.push(copied(alloc, set)?)?;
            walked.mappings.push(mapping)?;
        }
        Answer::Refuted => {}
        Answer::Blown => walked.blown.push(copied(alloc, set)?)?,
    }
    Ok(())
}

/// Searches at all sets of positions but for those above one that was found or given up.
fn walk_all(
    alloc: Global,
    p: &Program,
    component: &Component,
    needed: &[u32],
    last: u32,
) -> Result<Walked, AllocError>
    requires sound { IsSound p.now component.now }
    requires last { last ≡ length component.now.positions.items }
    requires small { last + 1 < 2 ^ 32 }
    ensures { IfOk result (λ walked. ForComponent p.now component.now (λ expression comps rows c.
        AreNeeded expression p.now comps rows c
        (columns 1 (length component.now.positions.items)) needed.now
        → IsAllWalked expression p.now comps rows c walked)) }
{
    let mut walked = Walked {
        found: Sequence::new(alloc),
        mappings: Sequence::new(alloc),
        blown: Sequence::new(alloc),
    };
    let sets = number_sets(alloc, last)?;
    for set in sets.as_slice() {
        visit(alloc, p, component, needed, set.as_slice(), &mut walked)?;
    }
    Ok(walked)
}

/// Searches for all minimal supports, at the positions that are needed first.
pub(crate) fn walk(
    alloc: Global,
    p: &Program,
    component: &Component,
    full: &[u32],
) -> Result<Walked, AllocError>
    requires sound { IsSound p.now component.now }
    requires full { full.now ≡ columns 1 (length component.now.positions.items) }
    requires small { length component.now.positions.items + 1 < 2 ^ 32 }
    ensures { IfOk result (λ walked. ForComponent p.now component.now (λ expression comps rows c.
        IsAllWalked expression p.now comps rows c walked)) }
{
    let needed = needed_positions(alloc, p, component, full)?;
    if let Some(walked) = walk_needed(alloc, p, component, needed.as_slice())? {
        return Ok(walked);
    }
    let last = component.positions.len() as u32;
    let walked = walk_all(alloc, p, component, needed.as_slice(), last)?;
    Ok(walked)
}
