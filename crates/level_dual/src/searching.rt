//! The search for a mapping at a set of positions.

ghost use Rattle.std.specs.Prelude.{◌≡◌, ◌≤◌, ◌≤ℤ◌, ◌+◌, ℤ, All, IfOk, IfSome, None, false, filter, length, map, pos};
ghost use Rattle.std.specs.List.{list_any};
ghost use Rattle.call_components.specs.Numbers.{number_of};
ghost use Rattle.level_dual.specs.Components.{ForComponent};
ghost use Rattle.level_systems.specs.Found.{IsBlownSet};
ghost use Rattle.level_systems.specs.Held.{live_of, numbers_of_call, recalled_at, spelled};
ghost use Rattle.level_systems.specs.Recalled.{count_of};
ghost use Rattle.level_systems.specs.Searched.{AreMeasuresAt, IsAnswer, IsMappingIf, IsSound};
ghost use Rattle.level_systems.specs.declared.own_call.OwnCall.{OwnCall};
ghost use Rattle.linear_rows.specs.Plain.{HaveWidth, plain_rows};
ghost use Rattle.termination_model.specs.mappings.BlownSupports.{same_position};
ghost use Rattle.termination_model.specs.mappings.Supports.{AreDistinct, picked_from};
ghost use Rattle.termination_model.specs.mappings.SupportSystem.{support_rows};

use crate::falling::falls_of;
use cti_terms::Program;
use fourier::ElimFault;
use level_systems::{
    Answer, Component, Mapping, Measure, Position, in_order, level_part, picked, solve_by,
    support_system,
};
use linear_rows::{Numbers, Rows, Solved};
use sequences::Sequence;
use std::alloc::{AllocError, Global};

/// The parts of the members in the mapping that values give.
pub fn measures_at(
    alloc: Global,
    p: &Program,
    component: &Component,
    at: &[Position],
    values: &Numbers,
) -> Result<Sequence<Measure>, AllocError>
    requires sound { IsSound p.now component.now }
    requires distinct { AreDistinct (map spelled at.now) }
    requires naturals { All (λ x. pos 0 ≤ℤ x) values.now }
    requires room { length at.now + length component.now.by_clauses.items ≤ length values.now }
    ensures { IfOk result (AreMeasuresAt p.now component.now at.now values.now) }
{
    let mut measures = Sequence::new(alloc);
    for member in &component.members {
        let part = level_part(
            alloc,
            p,
            at,
            component.by_clauses.as_slice(),
            values,
            *member,
        )?;
        measures.push(Measure {
            pred: *member,
            part,
        })?;
    }
    Ok(measures)
}

/// The mapping that a point of a support's system gives, where its falls are shown in numbers that fit.
fn mapping_at(
    alloc: Global,
    p: &Program,
    component: &Component,
    at: &[Position],
    values: &Numbers,
) -> Result<Option<Mapping>, AllocError>
    requires sound { IsSound p.now component.now }
    requires distinct { AreDistinct (map spelled at.now) }
    requires naturals { All (λ x. pos 0 ≤ℤ x) values.now }
    requires long { length values.now
        ≡ length at.now + (length component.now.by_clauses.items + count_of component.now.calls.items) }
    ensures { IfOk result (IsMappingIf p.now component.now at.now values.now) }
{
    let measures = measures_at(alloc, p, component, at, values)?;
    let values = &values.as_slice()[at.len()..][component.by_clauses.len()..];
    let falls = falls_of(
        alloc,
        component.calls.as_slice(),
        measures.as_slice(),
        values,
    )?;
    match falls {
        Some(falls) => Ok(Some(Mapping { measures, falls })),
        None => Ok(None),
    }
}

/// The positions of a set, in the order of the clauses.
pub fn positions_at(
    alloc: Global,
    component: &Component,
    set: &[u32],
) -> Result<Vec<Position>, AllocError>
    ensures { IfOk result (λ at. map spelled at.items ≡ filter
        (λ r. list_any (same_position r)
        (picked_from 1 (map spelled component.now.positions.items) set.now))
        (map spelled component.now.order.items)) }
{
    let at = picked(alloc, component.positions.as_slice(), set)?;
    in_order(alloc, component.order.as_slice(), at.as_slice())
}

/// The system of a component at these positions.
fn system_at(
    alloc: Global,
    p: &Program,
    component: &Component,
    at: &[Position],
) -> Result<Rows, AllocError>
    requires sound { IsSound p.now component.now }
    ensures width { IfOk result
        (λ system. system.width ≡ length at.now +
        (length component.now.by_clauses.items + count_of component.now.calls.items)) }
    ensures widths { IfOk result (λ system. HaveWidth system.width system.list) }
    ensures rows { IfOk result
        (λ system. ForComponent p.now component.now (λ expression comps rows c.
        plain_rows system.list ≡ support_rows expression (map spelled at.now)
        (map number_of component.now.by_clauses.items)
        (map (λ (own : OwnCall). recalled_at expression p.now rows comps c
        (numbers_of_call own)) (live_of component.now.calls.items)))) }
{
    // What every program keeps.
    p.preds();
    support_system(
        alloc,
        component.calls.as_slice(),
        at,
        component.by_clauses.as_slice(),
    )
}

/// Searches for a mapping at a set of positions by one way of solving. Nothing is found where the mapping that a point
/// gives has falls that are not shown in numbers that fit.
fn search_by(
    alloc: Global,
    p: &Program,
    component: &Component,
    set: &[u32],
    by_pivots: bool,
) -> Result<Option<Answer>, AllocError>
    requires sound { IsSound p.now component.now }
    ensures some { IfOk result
        (λ o. IfSome o (λ answer. ForComponent p.now component.now (λ expression comps rows c.
        IsAnswer expression p.now comps rows c set.now answer))) }
    ensures none { IfOk result (λ o. o ≡ None → by_pivots ≡ false
        → ForComponent p.now component.now (λ expression comps rows c.
        IsBlownSet expression p.now comps rows c set.now)) }
{
    let at = positions_at(alloc, component, set)?;
    let system = system_at(alloc, p, component, at.as_slice())?;
    match solve_by(alloc, &system, by_pivots) {
        Ok(Solved::Point(point)) => match mapping_at(
            alloc,
            p,
            component,
            at.as_slice(),
            &point.w,
        )? {
            Some(mapping) => Ok(Some(Answer::Mapping(mapping))),
            None => Ok(None),
        },
        Ok(Solved::Refuted(_)) => Ok(Some(Answer::Refuted)),
        Err(ElimFault::Blown { .. }) => Ok(Some(Answer::Blown)),
        Err(ElimFault::Memory) => Err(AllocError),
    }
}

/// Searches for a mapping at a set of positions, whose numbers count from 1.
///
/// The system is solved by pivots first. Where the numbers of what these find do not fit, elimination solves it again.
pub fn search(
    alloc: Global,
    p: &Program,
    component: &Component,
    set: &[u32],
) -> Result<Answer, AllocError>
    requires sound { IsSound p.now component.now }
    ensures { IfOk result (λ answer. ForComponent p.now component.now (λ expression comps rows c.
        IsAnswer expression p.now comps rows c set.now answer)) }
{
    if let Some(answer) = search_by(alloc, p, component, set, true)? {
        return Ok(answer);
    }
    match search_by(alloc, p, component, set, false)? {
        Some(answer) => Ok(answer),
        None => Ok(Answer::Blown),
    }
}
