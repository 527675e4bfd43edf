//! The chain that is found.

ghost use Rattle.std.specs.Prelude.{◌≡◌};

use crate::step::Step;
use sequences::Sequence;
use termination_model::Sizes;

/// The steps of a legal chain, and the size rows that it ends with.
pub struct Chain {
    pub steps: Sequence<Step>,
    pub sizes: Sizes,
}

impl Drop for Chain {
    fn drop(self) {
        let Chain { steps: _, sizes: _ } = self;
    }
}

impl Chain {
    /// The steps, and the size rows.
    pub fn into_parts(self) -> (Sequence<Step>, Sizes)
        ensures { (result.0 ≡ self.steps) × (result.1 ≡ self.sizes) }
    {
        let Chain { steps, sizes } = self;
        (steps, sizes)
    }
}
