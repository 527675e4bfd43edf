//! The search for a list at a set of positions, turn by turn.

ghost use Rattle.std.specs.Prelude.{◌≡◌, ◌<◌, [], ℕ, List, IfOk, OnOk, length, map};
ghost use Rattle.std.specs.List.{AllByRecursion};
ghost use Rattle.number_lists.specs.Coursing.{HaveLeft, IsAdvanced, IsCourse, IsEnded, IsListOver, IsNext, IsPlaced, rest_of};
ghost use Rattle.number_lists.specs.Found.{IsChosen, IsWithin};
ghost use Rattle.number_lists.specs.Systems.{ForSystem};
ghost use Rattle.number_lists.specs.declared.course.Leaving.TheVariants.{All as LeaveAll, One as LeaveOne};
ghost use Rattle.number_turns.specs.Recalled.{HasNumbers, recalled, spelled};
ghost use Rattle.transitions.specs.StuckSets.{Feature as Number};

use crate::course::{Course, Leaving, Made, Next, Step, Within};
use crate::features::{features_of, picked};
use crate::mapping::Mapping;
use crate::measure_list::MeasureList;
use crate::system::System;
use crate::tracking::{add_one, add_turn, after_one, gone_with, kept, places_first};
use crate::turning::step;
use linear_rows::Numbers;
use number_turns::{Feature, Transition};
use sequences::Sequence;
use std::alloc::{AllocError, Global};

/// The course before the first turn.
fn start(alloc: Global, transitions: &[Transition]) -> Result<Course, AllocError>
    ensures { IfOk result (λ course. (fs : List Number) → IsCourse fs transitions.now course) }
{
    let gone = vec![in alloc; false; transitions.len()]?;
    let places = places_first(alloc, transitions.len())?;
    Ok(Course {
        gone,
        places,
        mappings: Sequence::new(alloc),
    })
}

/// Lets the transition at a place leave.
fn let_one_leave(
    alloc: Global,
    transitions: &[Transition],
    first: usize,
    multipliers: &[i128],
    course: &mut Course,
) -> Result<(), AllocError>
    requires gone { length course.old.gone.items ≡ length transitions.now }
    requires places { length course.old.places.items ≡ length transitions.now }
    requires first { first < length transitions.now }
    ensures left { OnOk result (HaveLeft transitions.now multipliers.now course.old course.new (LeaveOne first)) }
    ensures mappings { OnOk result (course.new.mappings ≡ course.old.mappings) }
{
    let transition = &transitions[first];
    let place = &mut course.places[first];
    add_one(alloc, transition, multipliers, true, place)?;
    course.gone = gone_with(alloc, course.gone.as_slice(), first)?;
    let left = after_one(transition, multipliers, true);
    add_turn(
        alloc,
        transitions,
        course.gone.as_slice(),
        left,
        false,
        &mut course.places,
    )
}

/// Lets all transitions that remain leave.
fn let_all_leave(
    alloc: Global,
    transitions: &[Transition],
    multipliers: &[i128],
    course: &mut Course,
) -> Result<(), AllocError>
    requires gone { length course.old.gone.items ≡ length transitions.now }
    requires places { length course.old.places.items ≡ length transitions.now }
    ensures left { OnOk result (HaveLeft transitions.now multipliers.now course.old course.new LeaveAll) }
    ensures mappings { OnOk result (course.new.mappings ≡ course.old.mappings) }
{
    add_turn(
        alloc,
        transitions,
        course.gone.as_slice(),
        multipliers,
        true,
        &mut course.places,
    )?;
    course.gone = vec![in alloc; true; transitions.len()]?;
    Ok(())
}

/// Adds a turn to the course.
fn advance(
    alloc: Global,
    transitions: &[Transition],
    made: Made,
    course: &mut Course,
) -> Result<(), AllocError>
    requires gone { length course.old.gone.items ≡ length transitions.now }
    requires places { length course.old.places.items ≡ length transitions.now }
    requires placed { IsPlaced transitions.now made.leaving }
    ensures { OnOk result (IsAdvanced transitions.now made course.old course.new) }
{
    let Made {
        leaving,
        mapping,
        multipliers,
    } = made;
    match leaving {
        Leaving::All => let_all_leave(alloc, transitions, multipliers.as_slice(), course)?,
        Leaving::One(first) => {
            let_one_leave(alloc, transitions, first, multipliers.as_slice(), course)?;
        }
    }
    course.mappings.push(mapping)
}

/// Makes one more turn, if a transition remains.
fn go_on(
    alloc: Global,
    transitions: &[Transition],
    candidates: &[Feature],
    course: &mut Course,
) -> Result<Next, AllocError>
    requires numbers { AllByRecursion HasNumbers (map recalled transitions.now) }
    requires course { IsCourse (map spelled candidates.now) transitions.now course.old }
    ensures course { IfOk result
        (λ next. IsCourse (map spelled candidates.now) transitions.now course.new) }
    ensures next { IfOk result
        (IsNext (map spelled candidates.now) transitions.now course.old course.new) }
{
    let rest = kept(alloc, transitions, course.gone.as_slice())?;
    if rest.is_empty() {
        return Ok(Next::Done);
    }
    let gone = course.gone.as_slice();
    match step(alloc, transitions, gone, candidates, rest.as_slice())? {
        Step::Made(made) => {
            advance(alloc, transitions, made, course)?;
            Ok(Next::More)
        }
        Step::Refuted(groups) => Ok(Next::Refuted(groups)),
        Step::Blown => Ok(Next::Blown),
    }
}

/// The list of the mappings of turns that leave no transition; where there was none, of the mapping that is 0.
fn list_of(
    alloc: Global,
    transitions: &[Transition],
    course: Course,
) -> Result<MeasureList, AllocError>
    requires none { rest_of transitions.now course.gone.items ≡ [] }
    ensures { IfOk result (λ list. (fs : List Number)
        → IsCourse fs transitions.now course → IsListOver fs transitions.now list) }
{
    let Course {
        gone: _,
        places,
        mappings,
    } = course;
    let mut mappings = mappings;
    if mappings.is_empty() {
        mappings.push(Mapping {
            features: Sequence::new(alloc),
            numbers: Numbers::new(alloc),
        })?;
    }
    Ok(MeasureList {
        mappings,
        places: Sequence::from_vec(places),
    })
}

/// Makes turns as long as transitions remain.
fn take_turns(
    alloc: Global,
    transitions: &[Transition],
    candidates: &[Feature],
) -> Result<Within, AllocError>
    requires { AllByRecursion HasNumbers (map recalled transitions.now) }
    ensures { IfOk result (IsEnded (map spelled candidates.now) transitions.now) }
{
    let mut course = start(alloc, transitions)?;
    loop {
        match go_on(alloc, transitions, candidates, &mut course)? {
            Next::More => {}
            Next::Done => return Ok(Within::List(list_of(alloc, transitions, course)?)),
            Next::Refuted(groups) => return Ok(Within::Nothing(groups)),
            Next::Blown => return Ok(Within::GivenUp),
        }
    }
}

/// Searches by turns for a list of mappings that descends and that has numbers at a set of positions alone. In each
/// turn all transitions that remain leave, or else the first for which a mapping is found.
pub(crate) fn find_at(alloc: Global, system: &System<'_>, set: &[u32]) -> Result<Within, AllocError>
    requires { AllByRecursion HasNumbers (map recalled system.now.transitions.now) }
    ensures within { IfOk result (λ found. ForSystem system.now
        (λ members positions τs width. IsWithin members positions τs width set.now found)) }
    ensures chosen { IfOk result (λ found. ForSystem system.now
        (λ members positions τs width. IsChosen members positions τs width set.now found)) }
{
    let at = picked(alloc, system.positions, set)?;
    let candidates = features_of(alloc, system.members, at.as_slice())?;
    let found = take_turns(alloc, system.transitions, candidates.as_slice())?;
    Ok(found)
}
