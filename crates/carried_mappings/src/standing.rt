//! Components that stand for old ones.

ghost use Rattle.std.specs.Prelude.{◌≡◌, IfOk, option_map};
ghost use Rattle.termination_model.specs.mappings.ComponentViews.{members_in};
ghost use Rattle.carried_mappings.specs.Carrying.{CanBeCarried, CarriesOver, new_number};
ghost use Rattle.carried_mappings.specs.Moved.{moved_found, moved_refutation};
ghost use Rattle.carried_mappings.specs.Order.{AreSameMappings, HaveSameOrder};

use crate::order::have_same_names;
use crate::places::{numbers_before, places_before};
use crate::reordering::Reordered;
use level_systems::{Found, component_positions};
use solved_program::Edit;
use std::alloc::{AllocError, Global};

/// A component after an edit, the old component that it stands for, and the clauses of both.
#[derive(Clone, Copy)]
pub struct Standing<'a> {
    pub edit: &'a Edit<'a>,
    /// The component before the edit.
    pub before: u32,
    /// The component after it.
    pub after: u32,
    /// The numbers of the clauses of the component before the edit.
    pub own_before: &'a [u32],
    /// The numbers of those of the component after it.
    pub own: &'a [u32],
}

impl Standing<'_> {
    /// What is found of the component's mappings, where its members stand in another order.
    fn reorder(&self, alloc: Global, found: &Found) -> Result<Found, AllocError>
        requires { CanBeCarried self.now found.now }
        ensures carried { IfOk result (CarriesOver self.now found.now) }
        ensures mappings { IfOk result (λ x. AreSameMappings
            self.now.edit.now self.now.before found.now.mappings x.mappings) }
        ensures refutation { IfOk result (λ x. x.refutation
            ≡ option_map (moved_refutation (new_number self.now)) found.now.refutation) }
    {
        // What every program keeps.
        let edit = self.edit;
        let _old = edit.before.preds();
        let _new = edit.after.preds();
        let members = edit.components.members(self.after);
        let members_before = edit.components_before.members(self.before);
        let places = places_before(alloc, edit, members_before, members)?;
        let positions_before = component_positions(
            alloc,
            edit.before,
            edit.components_before,
            self.before,
        )?;
        let positions = component_positions(alloc, edit.after, edit.components, self.after)?;
        let stood = positions_before.as_slice();
        let numbers = numbers_before(alloc, edit, stood, positions.as_slice())?;
        let reordered = Reordered {
            standing: self,
            members,
            places: places.as_slice(),
            positions: stood,
            numbers: numbers.as_slice(),
        };
        reordered.found(alloc, found)
    }

    /// What is found of the component's mappings, from what was found of the old component's.
    pub fn carry(&self, alloc: Global, found: &Found) -> Result<Found, AllocError>
        requires { CanBeCarried self.now found.now }

        // By each norm it is what is found of the component, where the component stands for the old one. With the
        // members in the same order it is the same under the new numbers. In any order it has the same mappings and the
        // same refutation.
        ensures carried { IfOk result (CarriesOver self.now found.now) }
        ensures moved { HaveSameOrder self.now.edit.now self.now.before self.now.after
            → IfOk result (λ x. x ≡ moved_found (new_number self.now)
            (members_in self.now.edit.now.components.now self.now.after) found.now) }
        ensures mappings { IfOk result (λ x. AreSameMappings
            self.now.edit.now self.now.before found.now.mappings x.mappings) }
        ensures refutation { IfOk result (λ x. x.refutation
            ≡ option_map (moved_refutation (new_number self.now)) found.now.refutation) }
    {
        // What every program keeps.
        let _old = self.edit.before.preds();
        let _new = self.edit.after.preds();
        let before = self.edit.components_before.members(self.before);
        let after = self.edit.components.members(self.after);
        if !have_same_names(self.edit, before, after) {
            return self.reorder(alloc, found);
        }
        self.moved_found(alloc, after, found)
    }
}
