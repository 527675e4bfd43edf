//! Turns in which all calls that remain leave, sought by a system that asks for it.

ghost use Rattle.std.specs.Prelude.{◌≡◌, ◌≤◌, ◌+◌, IfOk, IfSome, length, map};
ghost use Rattle.level_dual.specs.Components.{ForComponent};
ghost use Rattle.level_systems.specs.Held.{spelled};
ghost use Rattle.level_systems.specs.Searched.{IsSound};
ghost use Rattle.level_systems.specs.Turned.{all_rows, held_of};
ghost use Rattle.lex_turns.specs.Testing.{AreAmong};
ghost use Rattle.lex_turns.specs.Turning.{IsMade, IsMadeStep, IsStep, IsTurnOf};
ghost use Rattle.linear_rows.specs.Plain.{HaveWidth};
ghost use Rattle.termination_model.specs.mappings.Supports.{AreDistinct};

use crate::turn::{Made, Round, Step};
use crate::turning::{made_at, system_of, turn};
use cti_terms::Program;
use fourier::ElimFault;
use level_systems::{Component, solve_by};
use linear_rows::{Numbers, Row, Rows, Solved};
use std::alloc::{AllocError, Global};

/// 1 at a place, and 0 elsewhere.
fn one_at(place: usize, column: usize) -> i128 {
    if column == place { 1 } else { 0 }
}

/// The row of a system of this width that says that the unknown at a place is at least 1.
fn least_one(alloc: Global, width: u32, place: usize) -> Result<Row, AllocError>
    ensures { IfOk result (λ row. length row.coeffs ≡ width) }
{
    let mut coeffs = Vec::new(alloc);
    for column in 0..width as usize {
        coeffs.push(one_at(place, column))?;
    }
    Ok(Row {
        constant: -1,
        coeffs: Numbers::from_vec(coeffs),
    })
}

/// The system of a turn, with rows that say that each call falls.
fn whole_system(
    alloc: Global,
    p: &Program,
    component: &Component,
    round: &Round<'_>,
) -> Result<Rows, AllocError>
    requires sound { IsSound p.now component.now }
    requires among { AreAmong component.now.calls.items (held_of round.now.rest.now) }
    ensures width { IfOk result (λ system. system.width ≡ length round.now.at.now +
        (length component.now.by_clauses.items +
        (length round.now.rest.now + all_rows (held_of round.now.rest.now)))) }
    ensures widths { IfOk result (λ system. HaveWidth system.width system.list) }
{
    let mut system = system_of(alloc, p, component, round)?;
    let width = system.width;
    let before = round.at.len() + component.by_clauses.len();
    for call in 0..round.rest.len() {
        system.push(least_one(alloc, width, before + call)?)?;
    }
    Ok(system)
}

/// A turn in which all calls leave, if pivots find one.
fn whole_turn(
    alloc: Global,
    p: &Program,
    component: &Component,
    round: &Round<'_>,
) -> Result<Option<Made>, AllocError>
    requires sound { IsSound p.now component.now }
    requires distinct { AreDistinct (map spelled round.now.at.now) }
    requires among { AreAmong component.now.calls.items (held_of round.now.rest.now) }
    requires some { 1 ≤ length round.now.rest.now }
    ensures made { IfOk result
        (λ o. IfSome o (IsMade component.now (held_of round.now.rest.now) round.now.first)) }
    ensures turn { IfOk result
        (λ o. IfSome o (λ made. ForComponent p.now component.now (λ expression comps rows c.
        IsTurnOf expression p.now comps rows c component.now round.now.at.now
        (held_of round.now.rest.now) made))) }
{
    let system = whole_system(alloc, p, component, round)?;
    match solve_by(alloc, &system, true) {
        Ok(Solved::Point(point)) => made_at(alloc, p, component, round, &point.w),
        Ok(Solved::Refuted(_)) => Ok(None),
        Err(ElimFault::Blown { .. }) => Ok(None),
        Err(ElimFault::Memory) => Err(AllocError),
    }
}

/// Makes a turn for the calls that remain; from the second turn on one in which all of them leave, where one is found.
pub(crate) fn long_turn(
    alloc: Global,
    p: &Program,
    component: &Component,
    round: &Round<'_>,
) -> Result<Step, AllocError>
    requires sound { IsSound p.now component.now }
    requires distinct { AreDistinct (map spelled round.now.at.now) }
    requires among { AreAmong component.now.calls.items (held_of round.now.rest.now) }
    requires some { 1 ≤ length round.now.rest.now }
    ensures made { IfOk result
        (IsMadeStep component.now (held_of round.now.rest.now) round.now.first) }
    ensures step { IfOk result (λ step. ForComponent p.now component.now (λ expression comps rows c.
        IsStep expression p.now comps rows c component.now round.now.at.now
        (held_of round.now.rest.now) round.now.first step)) }
{
    if !round.first {
        if let Some(made) = whole_turn(alloc, p, component, round)? {
            return Ok(Step::Made(made));
        }
    }
    turn(alloc, p, component, round)
}
