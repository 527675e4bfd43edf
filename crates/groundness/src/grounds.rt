//! A set of truth rows for each predicate.

ghost use Rattle.std.specs.Prelude.{◌≡◌, ◌<◌, length, slice_get, Some};

use bool_diagrams::Diagram;
use cti_terms::PredId;
use std::marker::Model;

/// A set of truth rows for each predicate, as a diagram of the table that it was made in: variable i is argument i.
///
/// Contracts see the list of the diagrams, and `family_of` says which rows they have.
#[derive(Drop)]
pub struct Grounds {
    pub(crate) sets: Vec<Diagram>,
}

impl Model for Grounds {
    ghost use Rattle.std.specs.Prelude.{List};
    ghost use Rattle.bool_diagrams.specs.declared.diagram.Diagram.{Diagram};

    ghost Value = { List Diagram };

    ghost view = { λ g. g.sets.items };
}

impl Grounds {
    /// The sets of all predicates, in the order of their numbers. It takes no memory.
    pub fn as_slice(&self) -> &[Diagram]
        ensures { result.now ≡ self.now }
    {
        self.sets.as_slice()
    }

    /// The set of a predicate. It takes no memory.
    pub fn of(&self, p: PredId) -> Diagram
        requires { p.0 < length self.now }
        ensures { slice_get self.now p.0 ≡ Some result }
    {
        self.sets[p.0 as usize]
    }
}
