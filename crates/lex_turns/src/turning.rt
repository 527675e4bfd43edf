//! Turns: a mapping that rises at none of the calls that remain, and falls at one of them.

ghost use Rattle.std.specs.Prelude.{◌≡◌, ◌≤◌, ◌≤ℤ◌, ◌+◌, ℕ, ℤ, All, IfOk, IfSome, List, None, false, true, length, map, pos};
ghost use Rattle.std.specs.List.{AllByRecursion};
ghost use Rattle.call_components.specs.Numbers.{number_of};
ghost use Rattle.level_dual.specs.Components.{ForComponent};
ghost use Rattle.level_systems.specs.Falling.{HasParts, IsReady};
ghost use Rattle.level_systems.specs.Held.{numbers_of_call, recalled_at, spelled};
ghost use Rattle.level_systems.specs.Searched.{IsSound};
ghost use Rattle.level_systems.specs.Turned.{all_rows, held_of};
ghost use Rattle.level_systems.specs.declared.own_call.OwnCall.{OwnCall};
ghost use Rattle.lex_turns.specs.Testing.{AreAmong, EmptyFall, Tells};
ghost use Rattle.lex_turns.specs.Turning.{IsMadeIf, IsMadeStep, IsStep};
ghost use Rattle.linear_rows.specs.Plain.{HaveWidth, plain_rows};
ghost use Rattle.termination_model.specs.mappings.Supports.{AreDistinct};
ghost use Rattle.termination_model.specs.lists.TurnSystem.{turn_rows};

use crate::dropping::{drops_of, empty_fall, some_fall};
use crate::turn::{Made, Round, Step};
use cti_terms::Program;
use fourier::ElimFault;
use level_dual::measures_at;
use level_systems::{Component, Measure, solve_by, turn_system};
use linear_rows::{Numbers, Rows, Solved};
use std::alloc::{AllocError, Global};

/// Whether the calls that are never reached fall, where the turn is the first.
fn empty_falls(
    alloc: Global,
    component: &Component,
    first: bool,
    measures: &[Measure],
) -> Result<bool, AllocError>
    requires parts { AllByRecursion (HasParts measures.now) component.now.calls.items }
    requires ready { AllByRecursion IsReady component.now.calls.items }
    ensures { IfOk result (Tells (first ≡ true
        → EmptyFall measures.now component.now.calls.items)) }
{
    if !first {
        return Ok(true);
    }
    empty_fall(alloc, component.calls.as_slice(), measures)
}

/// The turn that a point of its system gives, where its drops are shown in numbers that fit.
pub(crate) fn made_at(
    alloc: Global,
    p: &Program,
    component: &Component,
    round: &Round<'_>,
    values: &Numbers,
) -> Result<Option<Made>, AllocError>
    requires sound { IsSound p.now component.now }
    requires distinct { AreDistinct (map spelled round.now.at.now) }
    requires among { AreAmong component.now.calls.items (held_of round.now.rest.now) }
    requires naturals { All (λ x. pos 0 ≤ℤ x) values.now }
    requires long { length values.now ≡ length round.now.at.now +
        (length component.now.by_clauses.items +
        (length round.now.rest.now + all_rows (held_of round.now.rest.now))) }
    ensures { IfOk result (IsMadeIf p.now component.now round.now.at.now
        (held_of round.now.rest.now) round.now.first values.now) }
{
    let measures = measures_at(alloc, p, component, round.at, values)?;
    let values = &values.as_slice()[round.at.len()..][component.by_clauses.len()..][round
        .rest
        .len()..];
    let Some(falls) = drops_of(alloc, round.rest, measures.as_slice(), values)? else {
        return Ok(None);
    };
    if !some_fall(falls.as_slice()) {
        return Ok(None);
    }
    if !empty_falls(alloc, component, round.first, measures.as_slice())? {
        return Ok(None);
    }
    let values = Numbers::from_vec(Vec::from_slice(alloc, values)?);
    Ok(Some(Made {
        measures,
        falls,
        values,
    }))
}

/// The system of a turn.
pub(crate) fn system_of(
    alloc: Global,
    p: &Program,
    component: &Component,
    round: &Round<'_>,
) -> Result<Rows, AllocError>
    requires sound { IsSound p.now component.now }
    requires among { AreAmong component.now.calls.items (held_of round.now.rest.now) }
    ensures width { IfOk result
        (λ system. system.width ≡ length round.now.at.now +
        (length component.now.by_clauses.items +
        (length round.now.rest.now + all_rows (held_of round.now.rest.now)))) }
    ensures widths { IfOk result (λ system. HaveWidth system.width system.list) }
    ensures rows { IfOk result
        (λ system. ForComponent p.now component.now (λ expression comps rows c.
        plain_rows system.list ≡ turn_rows expression (map spelled round.now.at.now)
        (map number_of component.now.by_clauses.items)
        (map (λ (own : OwnCall). recalled_at expression p.now rows comps c
        (numbers_of_call own)) (held_of round.now.rest.now)))) }
{
    // What every program keeps.
    p.preds();
    turn_system(alloc, round.rest, round.at, component.by_clauses.as_slice())
}

/// Makes a turn by one way of solving. Nothing is made where the drops of the mapping that a point gives are not shown
/// in numbers that fit.
fn turn_by(
    alloc: Global,
    p: &Program,
    component: &Component,
    round: &Round<'_>,
    by_pivots: bool,
) -> Result<Option<Step>, AllocError>
    requires sound { IsSound p.now component.now }
    requires distinct { AreDistinct (map spelled round.now.at.now) }
    requires among { AreAmong component.now.calls.items (held_of round.now.rest.now) }
    requires some { 1 ≤ length round.now.rest.now }
    ensures made { IfOk result
        (λ o. IfSome o (IsMadeStep component.now (held_of round.now.rest.now) round.now.first)) }
    ensures some { IfOk result
        (λ o. IfSome o (λ step. ForComponent p.now component.now (λ expression comps rows c.
        IsStep expression p.now comps rows c component.now round.now.at.now
        (held_of round.now.rest.now) round.now.first step))) }
    ensures none { IfOk result (λ o. o ≡ None → by_pivots ≡ false
        → ForComponent p.now component.now (λ expression comps rows c.
        IsStep expression p.now comps rows c component.now round.now.at.now
        (held_of round.now.rest.now) round.now.first Step.Blown)) }
{
    let system = system_of(alloc, p, component, round)?;
    match solve_by(alloc, &system, by_pivots) {
        Ok(Solved::Point(point)) => match made_at(alloc, p, component, round, &point.w)? {
            Some(made) => Ok(Some(Step::Made(made))),
            None => Ok(None),
        },
        Ok(Solved::Refuted(_)) => Ok(Some(Step::Refuted)),
        Err(ElimFault::Blown { .. }) => Ok(Some(Step::Blown)),
        Err(ElimFault::Memory) => Err(AllocError),
    }
}

/// Makes a turn for the calls that remain.
///
/// The system is solved by pivots first. Where the numbers of what these find do not fit, elimination solves it again.
pub(crate) fn turn(
    alloc: Global,
    p: &Program,
    component: &Component,
    round: &Round<'_>,
) -> Result<Step, AllocError>
    requires sound { IsSound p.now component.now }
    requires distinct { AreDistinct (map spelled round.now.at.now) }
    requires among { AreAmong component.now.calls.items (held_of round.now.rest.now) }
    requires some { 1 ≤ length round.now.rest.now }
    ensures made { IfOk result
        (IsMadeStep component.now (held_of round.now.rest.now) round.now.first) }
    ensures step { IfOk result (λ step. ForComponent p.now component.now (λ expression comps rows c.
        IsStep expression p.now comps rows c component.now round.now.at.now
        (held_of round.now.rest.now) round.now.first step)) }
{
    if let Some(step) = turn_by(alloc, p, component, round, true)? {
        return Ok(step);
    }
    match turn_by(alloc, p, component, round, false)? {
        Some(step) => Ok(step),
        None => Ok(Step::Blown),
    }
}
