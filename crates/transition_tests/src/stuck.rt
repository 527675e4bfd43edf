//! Stuck sets.

ghost use Rattle.std.specs.Prelude.{◌↔◌, IsTrue, map};
ghost use Rattle.std.specs.List.{AllByRecursion};
ghost use Rattle.number_turns.specs.Recalled.{held_of, recalled_of, spelled};
ghost use Rattle.transition_tests.specs.Shape.{AreGroups, HasLengths};
ghost use Rattle.transition_tests.specs.StuckGroups.{IsStuckSet};

use crate::group::PointGroup;
use crate::points::groups_hold;
use crate::sums::are_balanced;
use number_turns::{Feature, Transition};

/// Whether groups, one for each transition in order, are a stuck set for some numbers of mappings. It takes no memory.
///
/// The time is that of the rows at all points, and for each of the numbers that of the columns at all points.
pub fn is_stuck(transitions: &[&Transition], features: &[Feature], groups: &[PointGroup]) -> bool
    requires lengths { AllByRecursion HasLengths (held_of transitions.now) }
    requires groups { AreGroups (recalled_of transitions.now) groups.now }
    ensures { IsTrue result
        ↔ IsStuckSet (map spelled features.now) (recalled_of transitions.now) groups.now }
{
    if groups.is_empty() {
        return false;
    }
    if !groups_hold(transitions, groups) {
        return false;
    }
    for feature in features {
        if !are_balanced(transitions, groups, *feature) {
            return false;
        }
    }
    true
}
