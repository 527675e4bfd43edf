//! Rows at the points of groups.

ghost use Rattle.std.specs.Prelude.{◌<◌, ◌↔◌, ◌≤ℤ◌, IfSome, IsTrue, length, pos};
ghost use Rattle.std.specs.List.{AllByRecursion};
ghost use Rattle.linear_rows.specs.Plain.{HaveWidth, plain_rows};
ghost use Rattle.number_tests.specs.SystemPoints.{ValueHolds};
ghost use Rattle.number_turns.specs.Recalled.{held_of, recalled, recalled_of};
ghost use Rattle.transition_tests.specs.Shape.{AreGroups, HasLengths, IsGroupOf, IsPlaced, IsPointOf};
ghost use Rattle.transition_tests.specs.StuckGroups.{own_point};
ghost use Rattle.transition_tests.specs.Testing.{AllHoldAt, AtEach, GroupHolds, PlacedHolds};

use crate::group::{PlacedPoint, PointGroup};
use crate::values::value_at;
use linear_rows::{Point, Rows};
use number_turns::Transition;

/// Whether rows hold at a point, and each number fits that their values form there.
fn rows_hold(rows: &Rows, point: &Point) -> bool
    requires { HaveWidth (length point.now.w) rows.now.list }
    ensures { IsTrue result
        ↔ AllByRecursion (ValueHolds point.now) (plain_rows rows.now.list) }
{
    for row in rows.list.as_slice() {
        let Some(value) = value_at(row, point) else {
            return false;
        };
        if value < 0 {
            return false;
        }
    }
    true
}

/// Whether there is a point of the transition at a place, and the first one has a `t` of at least 1.
fn has_own_point(points: &[PlacedPoint], place: usize) -> bool
    ensures { IsTrue result ↔ (pos 1 ≤ℤ (own_point place points.now).t) }
{
    for x in points {
        if x.place as usize == place {
            return x.point.t >= 1;
        }
    }
    false
}

/// Whether the rows of its transition hold at each point.
fn points_hold(transitions: &[&Transition], points: &[PlacedPoint]) -> bool
    requires lengths { AllByRecursion HasLengths (held_of transitions.now) }
    requires points { AllByRecursion (IsPlaced (recalled_of transitions.now)) points.now }
    ensures { IsTrue result
        ↔ AllByRecursion (PlacedHolds (recalled_of transitions.now)) points.now }
{
    for x in points {
        if !rows_hold(&transitions[x.place as usize].rows, &x.point) {
            return false;
        }
    }
    true
}

/// Whether the rows of a transition hold at a floor, if there is one.
fn floor_holds(transition: &Transition, floor: &Option<Point>) -> bool
    requires lengths { HasLengths transition.now }
    requires floor { IfSome floor.now (IsPointOf (recalled transition.now)) }
    ensures { IsTrue result ↔ IfSome floor.now (AllHoldAt (recalled transition.now)) }
{
    match floor {
        Some(point) => rows_hold(&transition.rows, point),
        None => true,
    }
}

/// Whether the group at a place has a point of its own transition, whose `t` is at least 1, and the rows hold at all
/// its points.
fn group_holds(transitions: &[&Transition], place: usize, group: &PointGroup) -> bool
    requires place { place < length transitions.now }
    requires lengths { AllByRecursion HasLengths (held_of transitions.now) }
    requires group { IsGroupOf (recalled_of transitions.now) place group.now }
    ensures { IsTrue result ↔ GroupHolds (recalled_of transitions.now) place group.now }
{
    let points = group.points.as_slice();
    if !has_own_point(points, place) {
        return false;
    }
    if !points_hold(transitions, points) {
        return false;
    }
    floor_holds(transitions[place], &group.floor)
}

/// Whether each group has a point of its own transition, and the rows hold at all points.
pub(crate) fn groups_hold(transitions: &[&Transition], groups: &[PointGroup]) -> bool
    requires lengths { AllByRecursion HasLengths (held_of transitions.now) }
    requires groups { AreGroups (recalled_of transitions.now) groups.now }
    ensures { IsTrue result
        ↔ AtEach (GroupHolds (recalled_of transitions.now)) groups.now }
{
    for i in 0..groups.len() {
        if !group_holds(transitions, i, &groups[i]) {
            return false;
        }
    }
    true
}
