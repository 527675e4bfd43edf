//! One turn of a search, for the transitions that remain.

ghost use Rattle.std.specs.Prelude.{◌≡◌, ◌<◌, ◌∷◌, [], IfOk, Some, false, length, map, slice_get, slice_set, true};
ghost use Rattle.std.specs.List.{AllByRecursion};
ghost use Rattle.number_lists.specs.Coursing.{IsAllMade, IsSomeStep, IsStep, made_of, rest_of};
ghost use Rattle.number_turns.specs.Recalled.{HasNumbers, recalled, recalled_of, spelled};
ghost use Rattle.number_turns.specs.Turning.{IsTurned};
ghost use Rattle.transitions.specs.StuckSets.{Feature as Number};
ghost use Rattle.transitions.specs.Transitions.{Transition as Recalled};
ghost use Rattle.transitions.specs.Turns.{unmarked};

use crate::course::{Leaving, Made, Step};
use crate::features::had_by_all;
use crate::grouping::group_of;
use crate::mapping::Mapping;
use crate::tracking::{gone_with, kept, with_first};
use number_turns::{Feature, Found, Transition, Turned, turn};
use sequences::Sequence;
use std::alloc::{AllocError, Global};

/// A turn that is made with a mapping that was found.
fn made(
    alloc: Global,
    features: &[Feature],
    leaving: Leaving,
    found: &Found,
) -> Result<Made, AllocError>
    ensures { IfOk result (λ made. made ≡ made_of features.now leaving found.now) }
{
    let features = Sequence::from_vec(Vec::from_slice(alloc, features)?);
    let numbers = found.numbers.copy(alloc)?;
    let multipliers = found.multipliers.copy(alloc)?;
    Ok(Made {
        leaving,
        mapping: Mapping { features, numbers },
        multipliers,
    })
}

/// A turn in which all transitions that remain leave, if a mapping is found.
fn turn_of_all(
    alloc: Global,
    rest: &[&Transition],
    features: &[Feature],
) -> Result<Option<Made>, AllocError>
    requires { AllByRecursion HasNumbers (recalled_of rest.now) }
    ensures { IfOk result (IsAllMade features.now (recalled_of rest.now)) }
{
    let marks = vec![in alloc; true; rest.len()]?;
    let turned = turn(alloc, rest, marks.as_slice(), features, true)?;
    match &turned {
        Turned::Found(found) => Ok(Some(made(alloc, features, Leaving::All, found)?)),
        Turned::Refuted(_) => Ok(None),
        Turned::Blown => Ok(None),
    }
}

/// What comes of the turn in which the transition at a place leaves, before the others, those that are not gone.
fn turn_of_one(
    alloc: Global,
    transitions: &[Transition],
    gone: &[bool],
    features: &[Feature],
    first: usize,
) -> Result<Turned, AllocError>
    requires numbers { AllByRecursion HasNumbers (map recalled transitions.now) }
    requires gone { length gone.now ≡ length transitions.now }
    requires first { first < length transitions.now }
    ensures { IfOk result (λ turned. (τ : Recalled)
        → slice_get (map recalled transitions.now) first ≡ Some τ
        → IsTurned (map spelled features.now)
        (τ ∷ unmarked (map recalled transitions.now) gone.now) (true ∷ []) turned) }
{
    let rest = with_first(alloc, transitions, gone, first)?;
    let turned = turn(alloc, rest.as_slice(), &[true], features, true)?;
    Ok(turned)
}

/// A turn in which one of the transitions that remain leaves: the first of them for which a mapping is found.
fn turn_of_some(
    alloc: Global,
    transitions: &[Transition],
    gone: &[bool],
    features: &[Feature],
) -> Result<Step, AllocError>
    requires numbers { AllByRecursion HasNumbers (map recalled transitions.now) }
    requires gone { length gone.now ≡ length transitions.now }
    ensures { IfOk result (IsSomeStep features.now transitions.now gone.now) }
{
    let mut groups = Sequence::new(alloc);
    let mut blown = false;
    for i in 0..transitions.len() {
        if gone[i] {
            continue;
        }
        let left = gone_with(alloc, gone, i)?;
        let turned = turn_of_one(alloc, transitions, left.as_slice(), features, i)?;
        match &turned {
            Turned::Found(found) => {
                let made = made(alloc, features, Leaving::One(i), found)?;
                return Ok(Step::Made(made));
            }
            Turned::Refuted(by) => {
                groups.push(group_of(alloc, transitions, left.as_slice(), i, by.as_slice())?)?;
            }
            Turned::Blown => blown = true,
        }
    }
    if blown {
        return Ok(Step::Blown);
    }
    Ok(Step::Refuted(groups))
}

/// What comes of a turn for the transitions that remain: all leave, or else one.
pub(crate) fn step(
    alloc: Global,
    transitions: &[Transition],
    gone: &[bool],
    candidates: &[Feature],
    rest: &[&Transition],
) -> Result<Step, AllocError>
    requires numbers { AllByRecursion HasNumbers (map recalled transitions.now) }
    requires gone { length gone.now ≡ length transitions.now }
    requires rest { recalled_of rest.now ≡ rest_of transitions.now gone.now }
    ensures { IfOk result (IsStep (map spelled candidates.now) transitions.now gone.now) }
{
    let features = had_by_all(alloc, candidates, rest)?;
    if let Some(made) = turn_of_all(alloc, rest, features.as_slice())? {
        return Ok(Step::Made(made));
    }
    let step = turn_of_some(alloc, transitions, gone, features.as_slice())?;
    Ok(step)
}
