//! A program with the components of its calls.

ghost use Rattle.std.specs.Prelude.{◌≡◌, ℕ, ◌<◌, length, slice_get};
ghost use Rattle.call_components.specs.Partition.{IsIn};
ghost use Rattle.cert_structure.specs.Shape.{is_together, is_recursive, first_of};

use call_components::Components;
use cti_terms::{PredId, Program};

/// A program, and the components of its calls.
#[derive(Clone, Copy)]
pub struct Calls<'a> {
    pub p: &'a Program,
    pub comps: &'a Components,
    ghost each: { length comps.now.of ≡ length p.now.preds },
    ghost within: { (c a : ℕ) → IsIn comps.now c a → c < length comps.now.members },
}

impl<'a> Calls<'a> {
    /// The component of a predicate, where there is such a predicate.
    fn component(&self, pred: u64) -> Option<u32>
        ensures { result ≡ slice_get self.now.comps.now.of pred }
    {
        if pred < u64::from(self.p.preds()) {
            Some(self.comps.of(PredId(pred as u32)))
        } else {
            None
        }
    }

    /// Whether two predicates are in one component.
    pub fn together(&self, a: u64, b: u64) -> bool
        ensures { result ≡ is_together self.now.comps.now a b }
    {
        match (self.component(a), self.component(b)) {
            (Some(c), Some(d)) => c == d,
            _ => false,
        }
    }

    /// Whether a predicate's component is recursive.
    pub fn recursive(&self, pred: u64) -> bool
        ensures { result ≡ is_recursive self.now.comps.now pred }
    {
        match self.component(pred) {
            Some(c) => self.comps.recursive(c),
            None => false,
        }
    }

    /// The first predicate of a predicate's component.
    pub fn first(&self, pred: u64) -> u64
        ensures { result ≡ first_of self.now.comps.now pred }
    {
        let Some(c) = self.component(pred) else {
            return pred;
        };
        match self.comps.members(c).first() {
            Some(first) => u64::from(first.0),
            None => pred,
        }
    }
}
