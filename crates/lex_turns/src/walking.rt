//! The walk over the sets of positions, the smaller ones first.

ghost use Rattle.std.specs.Prelude.{◌≡◌, ◌||◌, ◌<◌, ◌^◌, ◌+◌, ℕ, Some, suc, IfOk, length, slice_get, take};
ghost use Rattle.std.specs.List.{list_any};
ghost use Rattle.level_dual.specs.Components.{ForComponent};
ghost use Rattle.level_systems.specs.Searched.{IsSound};
ghost use Rattle.lex_turns.specs.Found.{AreVoid};
ghost use Rattle.lex_turns.specs.Walked.{IsAllWalked, IsWalkedTo};
ghost use Rattle.linear_rows.specs.Step.{columns};
ghost use Rattle.termination_model.specs.grounds.Modes.{chosen_up_to, is_part};

use crate::finding::find_at;
use crate::walked::Walked;
use crate::within::Within;
use cti_terms::Program;
use level_dual::{copied, is_above, is_below, without_number};
use level_systems::Component;
use sequences::Sequence;
use std::alloc::{AllocError, Global};
use termination_model::number_sets;

/// Whether a set is above one that was found, or above one that was given up.
fn is_passed(walked: &Walked, set: &[u32]) -> bool
    ensures { result ≡ (list_any (λ t. is_part t set.now) walked.now.found || list_any
        (λ t. is_part t set.now) walked.now.blown) }
{
    is_above(walked.found.as_slice(), set) || is_above(walked.blown.as_slice(), set)
}

/// The sets of all positions but one at which no list descends.
fn void_sets(
    alloc: Global,
    p: &Program,
    component: &Component,
    full: &[u32],
) -> Result<Sequence<Sequence<u32>>, AllocError>
    requires { IsSound p.now component.now }
    ensures { IfOk result (λ sets. ForComponent p.now component.now (λ expression comps rows c.
        AreVoid expression p.now comps rows c sets)) }
{
    let mut sets = Sequence::new(alloc);
    for number in full {
        let set = without_number(alloc, full, *number)?;
        match find_at(alloc, p, component, set.as_slice())? {
            Within::Nothing => sets.push(set)?,
            Within::List(_) => {}
            Within::GivenUp => {}
        }
    }
    Ok(sets)
}

/// Searches at one more set, unless it is above one that was found or given up, or part of one at which no list
/// descends.
fn visit(
    alloc: Global,
    p: &Program,
    component: &Component,
    void: &[Sequence<u32>],
    set: &[u32],
    walked: &mut Walked,
) -> Result<(), AllocError>
    requires sound { IsSound p.now component.now }
    ensures { IfOk result (λ done. ForComponent p.now component.now (λ expression comps rows c.
        (i : ℕ) → slice_get (chosen_up_to (length component.now.positions.items)
        (length component.now.positions.items)) i ≡ Some set.now
        → AreVoid expression p.now comps rows c void.now
        → IsWalkedTo expression p.now comps rows c
        (take i (chosen_up_to (length component.now.positions.items)
        (length component.now.positions.items))) walked.old
        → IsWalkedTo expression p.now comps rows c (take (suc i) (chosen_up_to
        (length component.now.positions.items)
        (length component.now.positions.items))) walked.new)) }
{
    if is_passed(walked, set) {
        return Ok(());
    }
    if is_below(void, set) {
        return Ok(());
    }
    match find_at(alloc, p, component, set)? {
        Within::List(list) => {
            walked.found.push(copied(alloc, set)?)?;
            walked.lists.push(list)?;
        }
        Within::Nothing => {}
        Within::GivenUp => walked.blown.push(copied(alloc, set)?)?,
    }
    Ok(())
}

/// Searches at all sets of positions but for those above one that was found or given up.
///
/// Where no list descends without some position, the sets without it are passed over.
pub(crate) fn walk(
    alloc: Global,
    p: &Program,
    component: &Component,
    full: &[u32],
    last: u32,
) -> Result<Walked, AllocError>
    requires sound { IsSound p.now component.now }
    requires last { last ≡ length component.now.positions.items }
    requires small { last + 1 < 2 ^ 32 }
    ensures { IfOk result (λ walked. ForComponent p.now component.now (λ expression comps rows c.
        IsAllWalked expression p.now comps rows c walked)) }
{
    let void = void_sets(alloc, p, component, full)?;
    let mut walked = Walked {
        found: Sequence::new(alloc),
        lists: Sequence::new(alloc),
        blown: Sequence::new(alloc),
    };
    let sets = number_sets(alloc, last)?;
    for set in sets.as_slice() {
        visit(
            alloc,
            p,
            component,
            void.as_slice(),
            set.as_slice(),
            &mut walked,
        )?;
    }
    Ok(walked)
}
