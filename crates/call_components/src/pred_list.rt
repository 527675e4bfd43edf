//! A list of predicates.

ghost use Rattle.std.specs.Prelude.{◌≡◌, ◌≤◌, OnOk, OnErr, MatchOption, length, map, take, drop, [], ◌∷◌, ◌++◌};
ghost use Rattle.call_components.specs.Numbers.{number_of, called_by_atom};

use cti_terms::{Atoms, PredId};
use std::alloc::{AllocError, Global};
use std::marker::Model;

/// A list of predicates. Contracts see the list of their numbers.
#[derive(Drop)]
pub(crate) struct Preds {
    items: Vec<PredId>,
}

impl Model for Preds {
    ghost use Rattle.std.specs.Prelude.{List, ℕ, map};
    ghost use Rattle.call_components.specs.Numbers.{number_of};

    ghost Value = { List ℕ };

    ghost view = { λ a. map number_of a.items.items };
}

impl Preds {
    /// No predicates. It takes no memory.
    pub(crate) fn new(alloc: Global) -> Preds
        ensures { result ≡ [] }
    {
        Preds {
            items: Vec::new(alloc),
        }
    }

    /// How many predicates are there.
    pub(crate) fn len(&self) -> usize
        ensures { result ≡ length self.now }
    {
        self.items.len()
    }

    /// The predicates, in their order.
    pub(crate) fn as_slice(&self) -> &[PredId]
        ensures { map number_of result.now ≡ self.now }
    {
        self.items.as_slice()
    }

    /// The predicates from this place on.
    pub(crate) fn tail(&self, first: usize) -> &[PredId]
        requires { first ≤ length self.now }
        ensures { map number_of result.now ≡ drop first self.now }
    {
        &self.items[first..]
    }

    /// Adds a predicate at the end.
    pub(crate) fn push(&mut self, pred: PredId) -> Result<(), AllocError>
        ensures ok { OnOk result (self.new ≡ self.old ++ pred.0 ∷ []) }
        ensures err { OnErr result (self.new ≡ self.old) }
    {
        self.items.push(pred)?;
        Ok(())
    }

    /// Adds these predicates at the end.
    pub(crate) fn extend(&mut self, preds: &Preds) -> Result<(), AllocError>
        ensures ok { OnOk result (self.new ≡ self.old ++ preds.now) }
    {
        self.items.extend_from_slice(preds.as_slice())?;
        Ok(())
    }

    /// Adds the predicates of these atoms at the end.
    pub(crate) fn extend_by(&mut self, atoms: &Atoms) -> Result<(), AllocError>
        ensures ok { OnOk result (self.new ≡ self.old ++ map called_by_atom atoms.now) }
    {
        for atom in atoms.as_slice() {
            self.items.push(atom.pred)?;
        }
        Ok(())
    }

    /// Takes the last predicate away, if more than `kept` are there.
    pub(crate) fn pop_above(&mut self, kept: usize) -> Option<PredId>
        ensures { MatchOption result
            ((self.new ≡ self.old) × (length self.old ≤ kept))
            (λ pred. (self.old ≡ self.new ++ pred.0 ∷ []) × (kept ≤ length self.new)) }
    {
        if self.items.len() > kept {
            self.items.pop()
        } else {
            None
        }
    }

    /// Keeps the first predicates, `kept` of them.
    pub(crate) fn truncate(&mut self, kept: usize)
        ensures { self.new ≡ take kept self.old }
    {
        self.items.truncate(kept);
    }
}
