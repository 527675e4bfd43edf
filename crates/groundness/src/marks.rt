//! Marks of the clauses that may still give a row.

ghost use Rattle.std.specs.Prelude.{◌≡◌, ◌<◌, ℕ, Bool, true, false, IfOk, OnOk, Contains, MatchOption, Some, length, replicate, slice_get, slice_set};
ghost use Rattle.cti_terms.specs.declared.predicates.PredId.{PredId as ThePred};
ghost use Rattle.groundness.specs.Marks.{AreWaiting, HasUser, IsMarked};

use crate::clause_lists::ClauseLists;
use cti_terms::PredId;
use std::alloc::{AllocError, Global};
use std::marker::Model;

/// A mark for each clause, and the clauses with a mark in the order in which they are to be looked at, the next one
/// last. Clauses count from 0. Contracts see the list of the marks.
#[derive(Drop)]
pub struct Marks {
    marked: Vec<bool>,
    /// A clause may stand here more than once, or without a mark.
    waiting: Vec<u32>,
}

impl Model for Marks {
    ghost use Rattle.std.specs.Prelude.{List, Bool};
    ghost use Rattle.groundness.specs.Marks.{AreWaiting};

    ghost Value = { List Bool };

    ghost view = { λ m. m.marked.items };

    ghost invariant = { λ m. AreWaiting m.marked.items m.waiting.items };
}

impl Marks {
    /// The given number of clauses, none with a mark.
    pub fn none(alloc: Global, count: u32) -> Result<Marks, AllocError>
        ensures { IfOk result (λ marks. marks ≡ replicate count false) }
    {
        let marked = vec![in alloc; false; count as usize]?;
        let waiting = Vec::new(alloc);
        Ok(Marks { marked, waiting })
    }

    /// Marks a clause, which is then the next. One that has a mark keeps its turn.
    pub(crate) fn mark(&mut self, clause: u32) -> Result<(), AllocError>
        requires { clause < length self.old }
        ensures each { length self.new ≡ length self.old }
        ensures marked { OnOk result (IsMarked self.new clause) }
        ensures more { (j : ℕ) → IsMarked self.old j → IsMarked self.new j }
    {
        if self.marked[clause as usize] {
            return Ok(());
        }
        self.waiting.push(clause)?;
        self.marked[clause as usize] = true;
        Ok(())
    }

    /// Marks these clauses.
    pub fn mark_all(&mut self, clauses: &[u32]) -> Result<(), AllocError>
        requires { (j : ℕ) → Contains clauses.now j → j < length self.old }
        ensures each { length self.new ≡ length self.old }
        ensures marked { OnOk result ((j : ℕ) → Contains clauses.now j → IsMarked self.new j) }
        ensures more { (j : ℕ) → IsMarked self.old j → IsMarked self.new j }
    {
        for clause in clauses {
            self.mark(*clause)?;
        }
        Ok(())
    }

    /// Marks the clauses that have one of these predicates in their heads.
    pub fn mark_members(
        &mut self,
        heads: &ClauseLists,
        members: &[PredId],
    ) -> Result<(), AllocError>
        requires { (q j : ℕ) → HasUser heads.now q j → j < length self.old }
        ensures each { length self.new ≡ length self.old }
        ensures marked { OnOk result ((i j : ℕ) (a : ThePred) → slice_get members.now i ≡ Some a
            → HasUser heads.now a.0 j → IsMarked self.new j) }
    {
        for member in members {
            self.mark_all(heads.of(*member))?;
        }
        Ok(())
    }

    /// Takes the mark of the next clause, if any has one.
    pub fn take(&mut self) -> Option<u32>
        ensures taken { MatchOption result
            ((self.new ≡ self.old) × ((j : ℕ) → IsMarked self.old j → ⊥))
            (λ clause. (self.new ≡ slice_set self.old clause false) × IsMarked self.old clause) }
    {
        take_marked(&mut self.marked, &mut self.waiting)
    }
}

/// Takes the mark of the last clause that waits and has one.
fn take_marked(marked: &mut Vec<bool>, waiting: &mut Vec<u32>) -> Option<u32>
    requires { AreWaiting marked.old.items waiting.old.items }
    ensures waiting { AreWaiting marked.new.items waiting.new.items }
    ensures taken { MatchOption result
        ((marked.new.items ≡ marked.old.items) × ((j : ℕ) → IsMarked marked.old.items j → ⊥))
        (λ clause. (marked.new.items ≡ slice_set marked.old.items clause false)
        × IsMarked marked.old.items clause) }
{
    while let Some(clause) = waiting.pop() {
        if !marked[clause as usize] {
            continue;
        }
        marked[clause as usize] = false;
        return Some(clause);
    }
    None
}
