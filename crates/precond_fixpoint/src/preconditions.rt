//! Preconditions and modes of a program's predicates.

ghost use Rattle.std.specs.Prelude.{◌≡◌, ◌<◌, length, slice_get, Some};
ghost use Rattle.number_tests.specs.Levels.{items_of};

use crate::mode::Mode;
use bool_diagrams::Diagram;
use cti_terms::PredId;
use sequences::Sequence;

/// Preconditions and modes by predicate, as `solve_levels` gives them.
pub struct Preconditions {
    /// For each predicate a set of truth rows for each mapping of its component, as a diagram of the table in which it
    /// was made. Variable i is argument i.
    pub sets: Sequence<Sequence<Diagram>>,
    /// For each predicate its minimal modes, by length and then in lexicographic order.
    pub modes: Sequence<Sequence<Mode>>,
}

impl Drop for Preconditions {
    fn drop(self) {
        let Preconditions { sets: _, modes: _ } = self;
    }
}

impl Preconditions {
    /// The set of a predicate for the mapping of this number, from 0 on. It takes no memory.
    pub fn pre(&self, p: PredId, m: u32) -> Diagram
        requires { m < length (items_of self.now.sets p.0) }
        ensures { slice_get (items_of self.now.sets p.0) m ≡ Some result }
    {
        self.sets.as_slice()[p.0 as usize].as_slice()[m as usize]
    }

    /// The modes of a predicate. It takes no memory.
    pub fn modes(&self, p: PredId) -> &[Mode]
        requires { p.0 < length self.now.modes }
        ensures { slice_get self.now.modes p.0 ≡ Some result.now }
    {
        self.modes.as_slice()[p.0 as usize].as_slice()
    }
}
