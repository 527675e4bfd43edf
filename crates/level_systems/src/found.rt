//! What is found of a component's mappings.

ghost use Rattle.std.specs.Prelude.{◌≡◌};

use crate::mapping::Mapping;
use number_tests::Refutation;
use sequences::Sequence;
use std::alloc::Global;

/// The mappings of a component, or why there are none.
///
/// The positions of a component are numbered from 1, by predicate and argument. A support is the ascending list of the
/// numbers of its positions.
pub struct Found {
    /// Decreasing mappings, by their supports: the shorter ones first.
    pub mappings: Sequence<Mapping>,

    /// Why no mapping decreases.
    pub refutation: Option<Refutation>,

    /// The supports that were given up, since their systems are blown.
    pub blown: Sequence<Sequence<u32>>,

    /// Whether there are more than 12 positions, so that not all supports are looked at.
    pub large: bool,
}

impl Drop for Found {
    fn drop(self) {
        let Found {
            mappings: _,
            refutation: _,
            blown: _,
            large: _,
        } = self;
    }
}

impl Found {
    ghost use Rattle.level_systems.specs.Found.{nothing};

    /// Nothing, where no mappings are searched for.
    pub fn nothing(alloc: Global) -> Found
        ensures { result ≡ nothing }
    {
        Found {
            mappings: Sequence::new(alloc),
            refutation: None,
            blown: Sequence::new(alloc),
            large: false,
        }
    }
}
