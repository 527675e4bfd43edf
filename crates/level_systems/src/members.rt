//! The members and the argument positions of a component.

ghost use Rattle.std.specs.Prelude.{◌≡◌, ◌||◌, ◌==◌, ◌++◌, ◌<◌, IfOk, IsTrue, OnOk, [], length, map, slice_get, Some, ℕ};
ghost use Rattle.std.specs.List.{AllByRecursion, list_any};
ghost use Rattle.call_components.specs.Numbers.{number_of};
ghost use Rattle.call_components.specs.Partition.{AreComponents};
ghost use Rattle.component_clauses.specs.Numbered.{HasItsClauses};
ghost use Rattle.level_systems.specs.Held.{spelled};
ghost use Rattle.level_systems.specs.Ordered.{arguments_from, members_by_clauses};
ghost use Rattle.termination_model.specs.mappings.ComponentViews.{positions_in};
ghost use Rattle.termination_model.specs.mappings.Ready.{arity_in, positions_by};

use crate::position::Position;
use call_components::Components;
use component_clauses::ComponentClauses;
use cti_terms::{PredId, Program};
use std::alloc::{AllocError, Global};

/// Whether a predicate is in a list.
fn is_listed(preds: &[PredId], pred: PredId) -> bool
    ensures { result ≡ list_any (λ q. q.0 == pred.0) preds.now }
{
    for other in preds {
        if other.0 == pred.0 {
            return true;
        }
    }
    false
}

/// The members that have clauses, by the numbers of their first clauses.
pub fn members_by_clauses(
    alloc: Global,
    own: &ComponentClauses<'_>,
) -> Result<Vec<PredId>, AllocError>
    requires { HasItsClauses own.now }
    ensures { IfOk result (λ members. map number_of members.items
        ≡ members_by_clauses own.now.comps.now own.now.number [] own.now.program.now.clauses) }
{
    // What every program keeps.
    own.program.preds();
    let mut members = Vec::new(alloc);
    for k in own.clauses {
        let pred = own.program.clause(*k).head.pred;
        if is_listed(members.as_slice(), pred) {
            continue;
        }
        members.push(pred)?;
    }
    Ok(members)
}

/// Adds the positions of a predicate.
fn add_positions(p: &Program, pred: PredId, positions: &mut Vec<Position>) -> Result<(), AllocError>
    requires { pred.0 < length p.now.preds }
    ensures { OnOk result (map spelled positions.new.items ≡ map spelled positions.old.items
        ++ arguments_from pred.0 0 (arity_in p.now pred.0)) }
{
    for argument in 0..p.pred(pred).arity {
        positions.push(Position { pred, argument })?;
    }
    Ok(())
}

/// The argument positions of predicates, in their order.
pub fn positions_of(
    alloc: Global,
    p: &Program,
    members: &[PredId],
) -> Result<Vec<Position>, AllocError>
    requires { AllByRecursion (λ q. q < length p.now.preds) (map number_of members.now) }
    ensures { IfOk result (λ positions. map spelled positions.items ≡ positions_by (arity_in p.now)
        (map number_of members.now)) }
{
    let mut positions = Vec::new(alloc);
    for member in members {
        add_positions(p, *member, &mut positions)?;
    }
    Ok(positions)
}

/// The positions of a component's members by their numbers.
pub fn component_positions(
    alloc: Global,
    p: &Program,
    comps: &Components,
    c: u32,
) -> Result<Vec<Position>, AllocError>
    requires components { AreComponents p.now comps.now }
    requires inner { c < length comps.now.members }
    ensures { IfOk result (λ positions. map spelled positions.items
        ≡ positions_in p.now comps.now c) }
{
    let positions = positions_of(alloc, p, comps.members(c))?;
    Ok(positions)
}
