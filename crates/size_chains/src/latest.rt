//! The last steps of a chain: those on each clause, and those that changed each predicate's rows.

ghost use Rattle.std.specs.Prelude.{◌≡◌, ◌≤◌, true, false, slice_set};
ghost use Rattle.size_chains.specs.Repeating.{HaveStayed};

use cti_terms::{Atom, PredId, Program};
use std::alloc::{AllocError, Global};

/// Where the last steps stand among all steps.
pub(crate) struct Latest {
    /// For each clause the place of its last step, if it had one.
    places: Vec<Option<usize>>,
    /// For each predicate how many steps there were up to the last one that changed its rows.
    pub(crate) changes: Vec<usize>,
}

impl Drop for Latest {
    fn drop(self) {
        let Latest {
            places: _,
            changes: _,
        } = self;
    }
}

impl Latest {
    /// Before a first step.
    pub(crate) fn new(alloc: Global, p: &Program) -> Result<Latest, AllocError> {
        let places = vec![in alloc; None; p.clauses() as usize]?;
        let changes = vec![in alloc; 0; p.preds() as usize]?;
        Ok(Latest { places, changes })
    }

    /// Notes that the last one of `steps` steps was on clause `k`, which is one of `pred`, and whether it changed rows.
    pub(crate) fn note(&mut self, k: u32, pred: PredId, steps: usize, changed: bool)
        requires clause { 1 ≤ k }
        requires some { 1 ≤ steps }
        ensures same { changed ≡ false → self.new.changes.items ≡ self.old.changes.items }
        ensures set { changed ≡ true
            → self.new.changes.items ≡ slice_set self.old.changes.items pred.0 steps }
    {
        let own = k as usize - 1;
        if own < self.places.len() {
            self.places[own] = Some(steps - 1);
        }
        if changed {
            put(&mut self.changes, pred.0 as usize, steps);
        }
    }

    /// The place of the last step on clause `k`, if it had one.
    pub(crate) fn place_of(&self, k: u32) -> Option<usize>
        requires { 1 ≤ k }
    {
        let own = k as usize - 1;
        if own < self.places.len() {
            self.places[own]
        } else {
            None
        }
    }

    /// Forgets the changes of these predicates' rows, when the steps are taken away.
    pub(crate) fn forget(&mut self, preds: &[PredId]) {
        for pred in preds {
            put(&mut self.changes, pred.0 as usize, 0);
        }
    }

    /// Whether the rows of these atoms' predicates are those that the step at a place read.
    pub(crate) fn have_stayed(&self, body: &[Atom], place: usize) -> bool
        ensures { result ≡ true → HaveStayed self.now.changes.items place body.now }
    {
        for atom in body {
            match self.changes.get(atom.pred.0 as usize) {
                Some(steps) if *steps <= place => {}
                _ => return false,
            }
        }
        true
    }
}

/// Puts a number in a place, if there is one.
fn put(numbers: &mut Vec<usize>, place: usize, number: usize)
    ensures { numbers.new.items ≡ slice_set numbers.old.items place number }
{
    if place < numbers.len() {
        numbers[place] = number;
    }
}
