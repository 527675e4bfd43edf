//! The search for a list of mappings that descends at some positions, turn by turn.

ghost use Rattle.std.specs.Prelude.{◌≡◌, ◌≤◌, ◌≤ℤ◌, ◌∷◌, [], ℕ, List, IfOk, OnOk, length, map, true};
ghost use Rattle.std.specs.List.{AllByRecursion};
ghost use Rattle.level_dual.specs.Components.{ForComponent};
ghost use Rattle.level_systems.specs.Held.{spelled};
ghost use Rattle.level_systems.specs.Mappings.{HasMeasures};
ghost use Rattle.level_systems.specs.Searched.{IsSound};
ghost use Rattle.level_systems.specs.declared.position.Position.{Position};
ghost use Rattle.lex_turns.specs.Coursing.{HasGone, IsAdvanced, IsCourse, IsEnded, IsNext, remaining_of};
ghost use Rattle.lex_turns.specs.Tracking.{kept, staying};
ghost use Rattle.level_systems.specs.Turned.{all_rows};
ghost use Rattle.termination_model.specs.mappings.Supports.{AreDistinct};

use crate::course::{Course, Ended, Next};
use crate::measure_list::MeasureList;
use crate::tracking::{add_drops, after_falls, drops_first, gone_first, kept};
use crate::turn::{Made, Round, Step};
use crate::whole::long_turn;
use crate::zeros::zero_measures;
use cti_terms::Program;
use level_systems::{Component, Position};
use sequences::Sequence;
use std::alloc::{AllocError, Global};

/// The course before the first turn.
fn start(alloc: Global, p: &Program, component: &Component) -> Result<Course, AllocError>
    ensures { IfOk result (λ course. (at : List Position)
        → IsCourse p.now component.now at course) }
{
    let calls = component.calls.as_slice();
    let gone = gone_first(alloc, calls)?;
    let drops = drops_first(alloc, calls)?;
    Ok(Course {
        gone,
        drops,
        measures: Sequence::new(alloc),
    })
}

/// Adds a turn to the course.
fn advance(
    alloc: Global,
    component: &Component,
    made: Made,
    course: &mut Course,
) -> Result<(), AllocError>
    requires gone { length course.old.gone.items ≡ length component.now.calls.items }
    requires drops { length course.old.drops.items ≡ length component.now.calls.items }
    requires falls { staying course.old.gone.items ≡ length made.falls }
    requires room { all_rows (kept component.now.calls.items course.old.gone.items)
        ≤ length made.values }
    ensures { OnOk result (IsAdvanced component.now made course.old course.new) }
{
    let Made {
        measures,
        falls,
        values,
    } = made;
    let calls = component.calls.as_slice();
    add_drops(
        alloc,
        calls,
        course.gone.as_slice(),
        values.as_slice(),
        &mut course.drops,
    )?;
    course.gone = after_falls(alloc, course.gone.as_slice(), falls.as_slice())?;
    course.measures.push(measures)
}

/// Makes one more turn, if a call remains.
fn go_on(
    alloc: Global,
    p: &Program,
    component: &Component,
    at: &[Position],
    course: &mut Course,
) -> Result<Next, AllocError>
    requires sound { IsSound p.now component.now }
    requires distinct { AreDistinct (map spelled at.now) }
    requires course { IsCourse p.now component.now at.now course.old }
    ensures course { IfOk result (λ next. IsCourse p.now component.now at.now course.new) }
    ensures next { IfOk result (IsNext p.now component.now at.now course.old course.new) }
{
    let rest = kept(alloc, component.calls.as_slice(), course.gone.as_slice())?;
    if rest.is_empty() {
        return Ok(Next::Done);
    }
    let round = Round {
        at,
        rest: rest.as_slice(),
        first: course.measures.is_empty(),
    };
    match long_turn(alloc, p, component, &round)? {
        Step::Made(made) => {
            advance(alloc, component, made, course)?;
            Ok(Next::More)
        }
        Step::Refuted => Ok(Next::Refuted),
        Step::Blown => Ok(Next::Blown),
    }
}

/// The list of one mapping that is 0, where no call is ever reached.
fn zero_list(
    alloc: Global,
    p: &Program,
    component: &Component,
    course: Course,
) -> Result<Ended, AllocError>
    requires sound { IsSound p.now component.now }
    requires measures { course.measures ≡ [] }
    requires none { remaining_of component.now course ≡ [] }
    ensures gone { IfOk result (HasGone component.now) }
    ensures ended { IfOk result (λ ended. (at : List Position)
        → IsCourse p.now component.now at course
        → ForComponent p.now component.now (λ expression comps rows c.
        IsEnded expression p.now comps rows c component.now at ended)) }
{
    let measures = zero_measures(alloc, p, component.members.as_slice())?;
    let Course {
        gone: _,
        drops,
        measures: _,
    } = course;
    let mut list = Sequence::new(alloc);
    list.push(measures)?;
    Ok(Ended::List(MeasureList {
        measures: list,
        drops: Sequence::from_vec(drops),
    }))
}

/// The list of the mappings of turns that leave no call.
fn list_of(
    alloc: Global,
    p: &Program,
    component: &Component,
    course: Course,
) -> Result<Ended, AllocError>
    requires sound { IsSound p.now component.now }
    requires none { remaining_of component.now course ≡ [] }
    ensures gone { IfOk result (HasGone component.now) }
    ensures ended { IfOk result (λ ended. (at : List Position)
        → IsCourse p.now component.now at course
        → ForComponent p.now component.now (λ expression comps rows c.
        IsEnded expression p.now comps rows c component.now at ended)) }
{
    if course.measures.is_empty() {
        return zero_list(alloc, p, component, course);
    }
    let Course {
        gone: _,
        drops,
        measures,
    } = course;
    Ok(Ended::List(MeasureList {
        measures,
        drops: Sequence::from_vec(drops),
    }))
}

/// Makes turns as long as calls remain.
pub(crate) fn take_turns(
    alloc: Global,
    p: &Program,
    component: &Component,
    at: &[Position],
) -> Result<Ended, AllocError>
    requires sound { IsSound p.now component.now }
    requires distinct { AreDistinct (map spelled at.now) }
    ensures gone { IfOk result (HasGone component.now) }
    ensures ended { IfOk result
        (λ ended. ForComponent p.now component.now (λ expression comps rows c.
        IsEnded expression p.now comps rows c component.now at.now ended)) }
{
    let mut course = start(alloc, p, component)?;
    loop {
        match go_on(alloc, p, component, at, &mut course)? {
            Next::More => {}
            Next::Done => return list_of(alloc, p, component, course),
            Next::Refuted => return Ok(Ended::Refuted(course.gone)),
            Next::Blown => return Ok(Ended::GivenUp),
        }
    }
}
