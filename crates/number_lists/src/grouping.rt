//! The groups of a stuck set, from the multipliers that refute turns.

ghost use Rattle.std.specs.Prelude.{◌≡◌, ◌<◌, IfOk, Some, length, slice_get};
ghost use Rattle.number_lists.specs.Grouping.{group_at, point_at, points_from};
ghost use Rattle.number_turns.specs.declared.transition.Transition.{Transition as Held};

use crate::cutting::{after, point_of};
use crate::group::Group;
use crate::transition_point::TransitionPoint;
use linear_rows::Point;
use number_turns::Transition;
use sequences::Sequence;
use std::alloc::{AllocError, Global};

/// The point of a transition that numbers spell.
fn transition_point(
    alloc: Global,
    place: usize,
    transition: &Transition,
    numbers: &[i128],
) -> Result<TransitionPoint, AllocError>
    ensures { IfOk result (λ point. point ≡ point_at place transition.now.rows.width numbers.now) }
{
    let point: Point = point_of(alloc, numbers, transition.rows.width as usize)?;
    Ok(TransitionPoint {
        transition: place,
        point,
    })
}

/// The points of the transitions that are not gone.
fn other_points(
    alloc: Global,
    transitions: &[Transition],
    gone: &[bool],
    numbers: &[i128],
) -> Result<Sequence<TransitionPoint>, AllocError>
    requires { length gone.now ≡ length transitions.now }
    ensures { IfOk result (λ points. points
        ≡ points_from 0 transitions.now gone.now numbers.now) }
{
    let mut points = Sequence::new(alloc);
    let mut left = numbers;
    for i in 0..transitions.len() {
        if gone[i] {
            continue;
        }
        points.push(transition_point(alloc, i, &transitions[i], left)?)?;
        left = after(after(left, 1), transitions[i].rows.width as usize);
    }
    Ok(points)
}

/// The group of a transition whose turn these multipliers refute: the point of its fall, the floor, and the points of
/// the others, those that are not gone.
pub(crate) fn group_of(
    alloc: Global,
    transitions: &[Transition],
    gone: &[bool],
    first: usize,
    multipliers: &[i128],
) -> Result<Group, AllocError>
    requires gone { length gone.now ≡ length transitions.now }
    requires first { first < length transitions.now }
    ensures { IfOk result (λ group. (τ : Held) → slice_get transitions.now first ≡ Some τ
        → group ≡ group_at first τ transitions.now gone.now multipliers.now) }
{
    let transition = &transitions[first];
    let width = transition.rows.width as usize;
    let floors = after(after(multipliers, 1), width);
    let own = transition_point(alloc, first, transition, multipliers)?;
    let floor = point_of(alloc, floors, width)?;
    let others = other_points(alloc, transitions, gone, after(after(floors, 1), width))?;
    Ok(Group {
        first: own,
        others,
        floor: Some(floor),
    })
}
