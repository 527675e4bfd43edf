//! The calls that need what no query makes sure of.

use crate::finding_causes::View;
use crate::rigid_sets::{AtomSets, RigidSets};
use crate::truths::named_arguments;
use crate::walk::Walk;
use listed_programs::{ClauseRow, number_of};
use std::alloc::{AllocError, Global};

/// How many own calls are followed, one after the other.
const MOST_ROUNDS: u32 = 3;

/// A call of a clause, both counted from 1, and the variables that are known there.
#[derive(Clone, Copy)]
pub struct CallAt {
    pub clause: u32,
    pub call: u32,
    pub callee: u32,
    pub known: u64,
    /// The byte of the text where it stands.
    pub at: Option<u32>,
    /// The byte of the own call that has to come before, where there is one.
    pub after: Option<u32>,
}

/// The arguments that are known at an own call.
#[derive(Clone, Copy)]
struct Weaker {
    arguments: u32,
    /// The byte of the call, or of the one before it that all own calls since come after.
    at: u32,
}

/// What was found of the calls of a component, where all arguments of its heads are known.
pub struct Found {
    /// The calls that surely lack something.
    pub lacking: Vec<CallAt>,
    /// The calls that may lack something.
    pub unsure: Vec<CallAt>,
    /// By predicate, the own call of it at which the fewest arguments are known.
    weaker: Vec<Option<Weaker>>,
}

impl Drop for Found {
    fn drop(self) {
        let Found {
            lacking: _,
            unsure: _,
            weaker: _,
        } = self;
    }
}

/// A clause that is gone through.
#[derive(Clone, Copy)]
struct Gone {
    clause: u32,
    row: ClauseRow,
    /// The arguments of the head that are known.
    arguments: u32,
    /// The own call after which the clause is gone through, by its byte.
    after: Option<u32>,
}

impl Found {
    /// Nothing about this many predicates.
    fn new(alloc: Global, preds: usize) -> Result<Found, AllocError> {
        Ok(Found {
            lacking: Vec::new(alloc),
            unsure: Vec::new(alloc),
            weaker: vec![in alloc; None; preds]?,
        })
    }

    /// Adds a call that lacks something, surely or not. After an own call only the sure ones count.
    fn push(&mut self, call: CallAt, is_sure: bool) -> Result<(), AllocError> {
        if is_sure {
            self.lacking.push(call)?;
        } else if call.after.is_none() {
            self.unsure.push(call)?;
        }
        Ok(())
    }

    /// Whether any call was found.
    fn is_any(&self) -> bool {
        !self.lacking.is_empty() || !self.unsure.is_empty()
    }

    /// Notes an own call at which fewer arguments are known than at one that was noted.
    fn note_weaker(&mut self, callee: u32, weaker: Weaker) {
        if let Some(place) = self.weaker.get_mut(callee as usize) {
            let is_weaker = match place {
                Some(noted) => {
                    weaker.arguments != noted.arguments && weaker.arguments & !noted.arguments == 0
                }
                None => true,
            };
            if is_weaker {
                *place = Some(weaker);
            }
        }
    }

    /// The own call that was noted of a predicate.
    fn weaker_of(&self, pred: u32) -> Option<Weaker> {
        self.weaker.get(pred as usize).copied().flatten()
    }
}

impl View<'_, '_, '_> {
    /// Whether these arguments are enough for a call that leaves its component.
    fn are_enough(self, callee: u32, arguments: u32) -> bool {
        self.modes_of(callee)
            .iter()
            .any(|mode| named_arguments(mode.as_slice()) & !arguments == 0)
    }

    /// Notes what a call of a clause lacks, the atom of this number after the head.
    fn note_call(
        self,
        gone: Gone,
        call: u32,
        atom: AtomSets,
        walk: &Walk<'_, '_, '_, '_>,
        found: &mut Found,
    ) -> Result<(), AllocError> {
        let table = &self.listed.table;
        let arguments = walk.arguments(atom);
        let count = table.calls_of(gone.row).len();
        let at = self.listed.places.call(gone.clause, call, count);
        if table.component_of(atom.pred) == table.component_of(gone.row.head) {
            let is_weaker = walk.is_sure && arguments != self.listed.all_arguments(atom.pred);
            if let (Some(at), true) = (gone.after.or(at), is_weaker) {
                found.note_weaker(atom.pred, Weaker { arguments, at });
            }
            return Ok(());
        }
        if self.are_enough(atom.pred, arguments) {
            return Ok(());
        }
        let call = CallAt {
            clause: gone.clause,
            call,
            callee: atom.pred,
            known: walk.known,
            at,
            after: gone.after,
        };
        found.push(call, walk.is_sure)
    }

    /// Goes through the calls of a clause.
    fn go_through(self, alloc: Global, gone: Gone, found: &mut Found) -> Result<(), AllocError> {
        let Some(clause) = self.listed.clause(gone.clause) else {
            return Ok(());
        };
        let sets = RigidSets::of(alloc, self.sizing(), clause)?;
        let mut walk = Walk::new(self, &sets, gone.arguments);
        let calls = sets.atoms.get(1..).unwrap_or(&[]);
        for (place, atom) in calls.iter().enumerate() {
            let number = number_of(place);
            self.note_call(gone, number, *atom, &walk, found)?;
            walk.pass(*atom, calls.get(..number as usize).unwrap_or(calls));
        }
        Ok(())
    }

    /// Goes through the clauses of a component, where all arguments of heads are known.
    fn go_from_all(
        self,
        alloc: Global,
        component: u32,
        found: &mut Found,
    ) -> Result<(), AllocError> {
        for (place, row) in self.listed.table.clauses.iter().enumerate() {
            if self.listed.table.component_of(row.head) == component {
                let gone = Gone {
                    clause: number_of(place),
                    row: *row,
                    arguments: self.listed.all_arguments(row.head),
                    after: None,
                };
                self.go_through(alloc, gone, found)?;
            }
        }
        Ok(())
    }

    /// Goes through the clauses of a component after the own calls that were noted.
    fn go_from_weaker(
        self,
        alloc: Global,
        component: u32,
        found: &mut Found,
    ) -> Result<(), AllocError> {
        for (place, row) in self.listed.table.clauses.iter().enumerate() {
            if self.listed.table.component_of(row.head) == component
                && let Some(weaker) = found.weaker_of(row.head)
            {
                let gone = Gone {
                    clause: number_of(place),
                    row: *row,
                    arguments: weaker.arguments,
                    after: Some(weaker.at),
                };
                self.go_through(alloc, gone, found)?;
            }
        }
        Ok(())
    }

    /// The calls of a component that lack something. After its own calls they are looked for only where there are no
    /// others.
    pub fn lacking_in(self, alloc: Global, component: u32) -> Result<Found, AllocError> {
        let mut found = Found::new(alloc, self.listed.table.preds.len())?;
        self.go_from_all(alloc, component, &mut found)?;
        for _ in 0..MOST_ROUNDS {
            if found.is_any() {
                break;
            }
            self.go_from_weaker(alloc, component, &mut found)?;
        }
        Ok(found)
    }
}
