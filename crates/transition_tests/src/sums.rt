//! Sums of what numbers of mappings are multiplied by at the points of groups.

ghost use Rattle.std.specs.Prelude.{◌≡◌, ◌<◌, ◌+ℤ◌, ◌↔◌, IfSome, IsTrue, SomeIff, if◌then◌else◌, length, map};
ghost use Rattle.std.specs.List.{AllByRecursion};
ghost use Rattle.exact128.specs.Fits.{Fits};
ghost use Rattle.number_turns.specs.Recalled.{held_of, recalled, recalled_of, spelled};
ghost use Rattle.termination_model.specs.claims.Claims.{SomeOf};
ghost use Rattle.transitions.specs.StuckSets.{Lacks, floor_share};
ghost use Rattle.transitions.specs.Transitions.{Transition as Recalled};
ghost use Rattle.transition_tests.specs.Shape.{AreGroups, HasLengths, IsGroupOf, IsPlaced, IsPointOf};
ghost use Rattle.transition_tests.specs.StuckGroups.{ShareFits, TotalFits, floor_at, placed_at, total as total_of};
ghost use Rattle.transition_tests.specs.Testing.{AreBalanced, IsBalanced, atoms};

use crate::group::{PlacedPoint, PointGroup};
use crate::values::share;
use exact128::plus;
use linear_rows::Point;
use number_turns::{AtomColumns, Feature, Transition};

/// The head of a transition, or its call.
fn atom_of<'a>(transition: &'a Transition, head: bool) -> &'a AtomColumns
    ensures { result.now ≡ (if head then transition.now.head else transition.now.call) }
{
    if head {
        &transition.head
    } else {
        &transition.call
    }
}

/// By what a number of a mapping is multiplied at all points together, in the levels of the heads or in those of the
/// calls.
fn total(
    transitions: &[&Transition],
    points: &[PlacedPoint],
    feature: Feature,
    head: bool,
) -> Option<i128>
    requires lengths { AllByRecursion HasLengths (held_of transitions.now) }
    requires points { AllByRecursion (IsPlaced (recalled_of transitions.now)) points.now }
    ensures { SomeIff result
        (TotalFits (recalled_of transitions.now) (atoms head) (spelled feature) points.now)
        (total_of (atoms head) (spelled feature)
        (map (placed_at (recalled_of transitions.now)) points.now)) }
{
    let mut sum = 0;
    for x in points {
        let atom = atom_of(transitions[x.place as usize], head);
        let Some(value) = share(atom, feature, &x.point) else {
            return None;
        };
        let Some(next) = plus(sum, value) else {
            return None;
        };
        sum = next;
    }
    Some(sum)
}

/// A sum with what a number of a mapping is multiplied by in the level of a head at a floor, if there is one.
fn with_floor(
    sum: i128,
    transition: &Transition,
    floor: &Option<Point>,
    feature: Feature,
) -> Option<i128>
    requires sum { Fits sum }
    requires lengths { HasLengths transition.now }
    requires floor { IfSome floor.now (IsPointOf (recalled transition.now)) }
    ensures { SomeIff result
        (IfSome floor.now (λ x. ShareFits (recalled transition.now).head
        (recalled transition.now).head_columns x (spelled feature))
        × Fits (sum +ℤ floor_share (recalled transition.now) (floor_at floor.now) (spelled feature)))
        (sum +ℤ floor_share (recalled transition.now) (floor_at floor.now) (spelled feature)) }
{
    match floor {
        Some(point) => plus(sum, share(&transition.head, feature, point)?),
        None => Some(sum),
    }
}

/// Whether the sums of the group at a place are balanced for a number of a mapping.
fn is_balanced(
    transitions: &[&Transition],
    place: usize,
    group: &PointGroup,
    feature: Feature,
) -> bool
    requires place { place < length transitions.now }
    requires lengths { AllByRecursion HasLengths (held_of transitions.now) }
    requires group { IsGroupOf (recalled_of transitions.now) place group.now }
    ensures { IsTrue result
        ↔ IsBalanced (recalled_of transitions.now) (spelled feature) place group.now }
{
    let points = group.points.as_slice();
    let Some(sum) = total(transitions, points, feature, true) else {
        return false;
    };
    let Some(heads) = with_floor(sum, transitions[place], &group.floor, feature) else {
        return false;
    };
    let Some(calls) = total(transitions, points, feature, false) else {
        return false;
    };
    if heads != calls {
        return false;
    }
    true
}

/// Whether some transition lacks an expression for a number of a mapping.
fn is_lacked(transitions: &[&Transition], feature: Feature) -> bool
    ensures { IsTrue result
        ↔ SomeOf (λ (τ : Recalled). Lacks τ (spelled feature)) (recalled_of transitions.now) }
{
    for transition in transitions {
        if transition.lacks(feature) {
            return true;
        }
    }
    false
}

/// Whether the sums of each group are balanced for a number of a mapping, unless some transition lacks it.
pub(crate) fn are_balanced(
    transitions: &[&Transition],
    groups: &[PointGroup],
    feature: Feature,
) -> bool
    requires lengths { AllByRecursion HasLengths (held_of transitions.now) }
    requires groups { AreGroups (recalled_of transitions.now) groups.now }
    ensures { IsTrue result
        ↔ AreBalanced (recalled_of transitions.now) groups.now (spelled feature) }
{
    if is_lacked(transitions, feature) {
        return true;
    }
    for i in 0..groups.len() {
        if !is_balanced(transitions, i, &groups[i], feature) {
            return false;
        }
    }
    true
}
