//! The transitions in the course of the turns: which are gone, and the place of each.

ghost use Rattle.std.specs.Prelude.{◌≡◌, ◌<◌, ◌∷◌, ◌++◌, [], IfOk, OnOk, Some, length, map, slice_get, slice_set, true};
ghost use Rattle.number_lists.specs.Tracking.{after_turn, after_turns, no_places, with_turn};
ghost use Rattle.number_turns.specs.Recalled.{held_of, recalled, recalled_of};
ghost use Rattle.transitions.specs.Transitions.{Transition as Recalled};
ghost use Rattle.transitions.specs.Turns.{unmarked};

use crate::cutting::{after, first_of};
use crate::place::Place;
use linear_rows::Numbers;
use number_turns::Transition;
use sequences::Sequence;
use std::alloc::{AllocError, Global};

/// The places before the first turn.
pub(crate) fn places_first(alloc: Global, count: usize) -> Result<Vec<Place>, AllocError>
    ensures { IfOk result (λ places. places.items ≡ no_places count) }
{
    let mut places = Vec::new(alloc);
    for _ in 0..count {
        places.push(Place {
            multipliers: Sequence::new(alloc),
            floor: Numbers::new(alloc),
        })?;
    }
    Ok(places)
}

/// Some transitions, and then those that are not gone.
fn with_kept<'a>(
    rest: Vec<&'a Transition>,
    transitions: &'a [Transition],
    gone: &[bool],
) -> Result<Vec<&'a Transition>, AllocError>
    requires { length gone.now ≡ length transitions.now }
    ensures { IfOk result (λ all. held_of all.items
        ≡ held_of rest.entry.items ++ unmarked transitions.now gone.now) }
{
    let mut all = rest;
    for i in 0..transitions.len() {
        if gone[i] {
            continue;
        }
        all.push(&transitions[i])?;
    }
    Ok(all)
}

/// The transitions that are not gone.
pub(crate) fn kept<'a>(
    alloc: Global,
    transitions: &'a [Transition],
    gone: &[bool],
) -> Result<Vec<&'a Transition>, AllocError>
    requires { length gone.now ≡ length transitions.now }
    ensures { IfOk result (λ rest. recalled_of rest.items
        ≡ unmarked (map recalled transitions.now) gone.now) }
{
    let rest = with_kept(Vec::new(alloc), transitions, gone)?;
    Ok(rest)
}

/// The transition at a place, and then those that are not gone.
pub(crate) fn with_first<'a>(
    alloc: Global,
    transitions: &'a [Transition],
    gone: &[bool],
    first: usize,
) -> Result<Vec<&'a Transition>, AllocError>
    requires gone { length gone.now ≡ length transitions.now }
    requires first { first < length transitions.now }
    ensures { IfOk result (λ rest. (τ : Recalled)
        → slice_get (map recalled transitions.now) first ≡ Some τ
        → recalled_of rest.items ≡ τ ∷ unmarked (map recalled transitions.now) gone.now) }
{
    let mut rest = Vec::new(alloc);
    rest.push(&transitions[first])?;
    let rest = with_kept(rest, transitions, gone)?;
    Ok(rest)
}

/// Which transitions are gone when one more is.
pub(crate) fn gone_with(alloc: Global, gone: &[bool], first: usize) -> Result<Vec<bool>, AllocError>
    requires { first < length gone.now }
    ensures { IfOk result (λ left. left.items ≡ slice_set gone.now first true) }
{
    let mut left = Vec::from_slice(alloc, gone)?;
    left[first] = true;
    Ok(left)
}

/// Adds the multipliers of a turn to the place of a transition; where it leaves, those of its fall and of its floor.
pub(crate) fn add_one(
    alloc: Global,
    transition: &Transition,
    multipliers: &[i128],
    leaves: bool,
    place: &mut Place,
) -> Result<(), AllocError>
    ensures { OnOk result (place.new ≡ with_turn leaves
        (length transition.now.rows.list) multipliers.now place.old) }
{
    let many = transition.rows.list.len();
    place.multipliers.push(first_of(alloc, multipliers, many)?)?;
    if leaves {
        place.floor = first_of(alloc, after(multipliers, many), many)?;
    }
    Ok(())
}

/// The multipliers of a turn after those of a transition.
pub(crate) fn after_one<'a>(
    transition: &Transition,
    multipliers: &'a [i128],
    leaves: bool,
) -> &'a [i128]
    ensures { result.now ≡ after_turn leaves (length transition.now.rows.list) multipliers.now }
{
    let many = transition.rows.list.len();
    let left = after(multipliers, many);
    if leaves {
        return after(left, many);
    }
    left
}

/// Adds the multipliers of a turn to the places of the transitions that are not gone, which all leave or all stay.
pub(crate) fn add_turn(
    alloc: Global,
    transitions: &[Transition],
    gone: &[bool],
    multipliers: &[i128],
    leave: bool,
    places: &mut Vec<Place>,
) -> Result<(), AllocError>
    requires gone { length gone.now ≡ length transitions.now }
    requires places { length places.old.items ≡ length transitions.now }
    ensures { OnOk result (places.new.items ≡ after_turns leave transitions.now
        gone.now multipliers.now places.old.items) }
{
    let mut left = multipliers;
    for i in 0..transitions.len() {
        if gone[i] {
            continue;
        }
        let transition = &transitions[i];
        add_one(alloc, transition, left, leave, &mut places[i])?;
        left = after_one(transition, left, leave);
    }
    Ok(())
}
