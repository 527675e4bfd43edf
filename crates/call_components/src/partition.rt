//! The components of a program.

ghost use Rattle.std.specs.Prelude.{◌≡◌, ◌<◌, length, map, slice_get, Some};
ghost use Rattle.call_components.specs.Numbers.{number_of};

use crate::pred_lists::PredLists;
use cti_terms::PredId;
use std::marker::Model;

/// The components of a program's calls, numbered from 0, callees first.
///
/// Contracts see a `Partition`. That it is a given program's is `AreComponents`, which `components` ensures and which
/// whoever takes both requires.
pub struct Components {
    pub(crate) of: Vec<u32>,
    pub(crate) members: PredLists,
    pub(crate) recursive: Vec<bool>,
}

impl Drop for Components {
    fn drop(self) {
        let Components {
            of: _,
            members: _,
            recursive: _,
        } = self;
    }
}

impl Model for Components {
    ghost use Rattle.call_components.specs.Partition.{Partition, IsPartition};

    ghost Value = { Partition };

    ghost view = { λ a. record { of = a.of.items; members = a.members; recursive = a.recursive.items } };

    ghost invariant = { λ a. IsPartition (record {
      of = a.of.items;
      members = a.members;
      recursive = a.recursive.items;
    }) };
}

impl Components {
    /// How many components there are. It takes no memory.
    pub fn count(&self) -> u32
        ensures { result ≡ length self.now.members }
    {
        self.members.count()
    }

    /// The members of a component, in ascending order. It takes no memory.
    pub fn members(&self, c: u32) -> &[PredId]
        requires { c < length self.now.members }
        ensures { slice_get self.now.members c ≡ Some (map number_of result.now) }
    {
        self.members.row(c).as_slice()
    }

    /// The component of a predicate. It takes no memory.
    pub fn of(&self, p: PredId) -> u32
        requires { p.0 < length self.now.of }
        ensures { slice_get self.now.of p.0 ≡ Some result }
    {
        self.of[p.0 as usize]
    }

    /// Whether a clause of a member calls a member. It takes no memory.
    pub fn recursive(&self, c: u32) -> bool
        requires { c < length self.now.members }
        ensures { slice_get self.now.recursive c ≡ Some result }
    {
        self.recursive[c as usize]
    }
}
