//! Which components stand for those from before an edit.

ghost use Rattle.std.specs.Prelude.{◌≡◌, ◌≤◌, ◌<◌, ◌↔◌, IsTrue, length, Some};
ghost use Rattle.std.specs.List.{AllByRecursion};
ghost use Rattle.solved_program.specs.Comparing.{AreNumbersIn, AreTheSameCalls, HaveSameClause, HaveSameClauses};
ghost use Rattle.solved_program.specs.Comparing.{IsCompared, IsTheSameCall};

use crate::edit::Edit;
use cti_terms::{Atom, PredId};

/// A component from before an edit and one from after it, with marks of what has stayed.
#[derive(Clone, Copy)]
pub(crate) struct Compared<'a> {
    pub(crate) edit: &'a Edit<'a>,
    /// The component before the edit.
    pub(crate) before: u32,
    /// The component after it.
    pub(crate) after: u32,
    /// For each predicate after the edit whether what was found of it has stayed.
    pub(crate) stayed: &'a [bool],
}

/// Whether a clause was kept, and had this number.
fn is_kept_as(kept: Option<u32>, number: u32) -> bool
    ensures { IsTrue result ↔ (kept ≡ Some number) }
{
    match kept {
        Some(before) => before == number,
        None => false,
    }
}

impl Compared<'_> {
    /// Whether both are members of the components, or neither is one and what was found of it has stayed.
    fn is_same_call(&self, before: PredId, after: PredId) -> bool
        requires compared { IsCompared self.now }
        requires before { before.0 < length self.now.edit.now.before.now.preds }
        requires after { after.0 < length self.now.edit.now.after.now.preds }
        ensures { IsTrue result ↔ IsTheSameCall self.now before.0 after.0 }
    {
        if self.edit.components_before.of(before) == self.before {
            return self.edit.components.of(after) == self.after;
        }
        if self.edit.components.of(after) == self.after {
            return false;
        }
        self.stayed[after.0 as usize]
    }

    /// Whether the atoms of two bodies are the same calls, one by one.
    fn are_same_calls(&self, before: &[Atom], after: &[Atom]) -> bool
        requires compared { IsCompared self.now }
        requires before { AllByRecursion
            (λ b. b.pred.0 < length self.now.edit.now.before.now.preds) before.now }
        requires after { AllByRecursion
            (λ b. b.pred.0 < length self.now.edit.now.after.now.preds) after.now }
        ensures { IsTrue result ↔ AreTheSameCalls self.now before.now after.now }
    {
        if before.len() != after.len() {
            return false;
        }
        for i in 0..before.len() {
            if !self.is_same_call(before[i].pred, after[i].pred) {
                return false;
            }
        }
        true
    }

    /// Whether the clause `after` is the clause `before`, and has the same calls.
    fn is_same_clause(&self, before: u32, after: u32) -> bool
        requires compared { IsCompared self.now }
        requires first_before { 1 ≤ before }
        requires last_before { before ≤ length self.now.edit.now.before.now.clauses }
        requires first { 1 ≤ after }
        requires last { after ≤ length self.now.edit.now.after.now.clauses }
        ensures { IsTrue result ↔ HaveSameClause self.now before after }
    {
        let kept = self.edit.kept[after as usize - 1];
        if !is_kept_as(kept, before) {
            return false;
        }
        let old = self.edit.before.clause(before);
        let new = self.edit.after.clause(after);
        self.are_same_calls(old.body.as_slice(), new.body.as_slice())
    }

    /// Whether the clauses `own` are the clauses `own_before`, in order, and have the same calls.
    pub(crate) fn are_same_clauses(&self, own_before: &[u32], own: &[u32]) -> bool
        requires compared { IsCompared self.now }
        requires before { AreNumbersIn self.now.edit.now.before.now own_before.now }
        requires after { AreNumbersIn self.now.edit.now.after.now own.now }
        ensures { IsTrue result ↔ HaveSameClauses self.now own_before.now own.now }
    {
        if own_before.len() != own.len() {
            return false;
        }
        for i in 0..own.len() {
            if !self.is_same_clause(own_before[i], own[i]) {
                return false;
            }
        }
        true
    }
}
