//! The clauses of each predicate, one after the other.

ghost use Rattle.std.specs.Prelude.{ℕ, ◌+◌, ◌≤◌, IfOk, IfSome, length};
ghost use Rattle.cti_terms.specs.Listing.{Listing};
ghost use Rattle.ld_resolver.specs.Chain.{IsChain, IsNext, IsAfter, IsKindAt};

use crate::first_kind::{FirstKind, first_kind};
use cti_terms::{PredId, Program};
use std::alloc::{AllocError, Global};

/// For each predicate of a program the number of its first clause, and for each clause the number of the next one of
/// its predicate, and the kind of its first argument. One past the last clause stands for none.
pub struct ClauseChain {
    first: Vec<u32>,
    next: Vec<u32>,
    kinds: Vec<FirstKind>,
    none: u32,
}

impl Drop for ClauseChain {
    fn drop(self) {
        let ClauseChain {
            first: _,
            next: _,
            kinds: _,
            none: _,
        } = self;
    }
}

impl ClauseChain {
    /// The chain of a program, in time linear in its predicates and clauses.
    pub fn new(alloc: Global, program: &Program) -> Result<ClauseChain, AllocError>
        ensures { IfOk result (IsChain program.now) }
    {
        let none = program.clauses() + 1;
        let mut first = vec![in alloc; none; program.preds() as usize]?;
        let mut next = vec![in alloc; none; program.clauses() as usize]?;
        let mut kinds = vec![in alloc; FirstKind::Any; program.clauses() as usize]?;
        let mut number = program.clauses();
        while number > 0 {
            let head = &program.clause(number).head;
            let pred = head.pred.0 as usize;
            let place = number as usize - 1;
            next[place] = first[pred];
            first[pred] = number;
            kinds[place] = first_kind(head);
            number -= 1;
        }
        Ok(ClauseChain {
            first,
            next,
            kinds,
            none,
        })
    }

    /// The number of a predicate's first clause.
    pub fn first(&self, pred: PredId) -> u32
        ensures { (p : Listing) → IsChain p self.now → IsNext p pred.0 1 result }
    {
        match self.first.get(pred.0 as usize) {
            Some(number) => *number,
            None => self.none,
        }
    }

    /// The number of the next clause of the same predicate.
    pub fn after(&self, number: u32) -> u32
        requires first { 1 ≤ number }
        requires last { number ≤ length self.now.next.items }
        ensures { (p : Listing) → IsChain p self.now → IsAfter p number result }
    {
        self.next[number as usize - 1]
    }

    /// The kind of the first argument of the clause of a number, if there is such a clause.
    pub fn kind(&self, number: u32) -> Option<FirstKind>
        requires { 1 ≤ number }
        ensures { IfSome result (λ kind. (p : Listing) → IsChain p self.now → IsKindAt p number kind) }
    {
        let kind = self.kinds.get(number as usize - 1)?;
        Some(*kind)
    }
}
