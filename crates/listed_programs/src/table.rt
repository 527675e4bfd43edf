//! A program as lists of numbers.

use call_components::{Components, components};
use cti_terms::{Clause, Pred, PredId, Program};
use std::alloc::{AllocError, Global};

/// The number, from 1, of what stands at a place, from 0.
pub fn number_of(place: usize) -> u32 {
    u32::try_from(place).unwrap_or(u32::MAX).saturating_add(1)
}

/// A clause: its head's predicate, and which of the table's calls are its own.
#[derive(Clone, Copy)]
pub struct ClauseRow {
    pub head: u32,
    start: usize,
    count: usize,
}

/// A program: its predicates, its clauses, and which component a predicate is in.
pub struct ProgramTable {
    pub preds: Vec<Pred>,
    /// The component of each predicate.
    component: Vec<u32>,
    pub clauses: Vec<ClauseRow>,
    /// The predicates of the calls of all clauses.
    calls: Vec<u32>,
    /// Whether each component is recursive.
    recursive: Vec<bool>,
}

impl Drop for ProgramTable {
    fn drop(self) {
        let ProgramTable {
            preds: _,
            component: _,
            clauses: _,
            calls: _,
            recursive: _,
        } = self;
    }
}

impl ProgramTable {
    /// The table of a program.
    pub fn of(alloc: Global, program: &Program) -> Result<ProgramTable, AllocError> {
        let mut table = ProgramTable {
            preds: Vec::new(alloc),
            component: Vec::new(alloc),
            clauses: Vec::new(alloc),
            calls: Vec::new(alloc),
            recursive: Vec::new(alloc),
        };
        for number in 0..program.preds() {
            table.preds.push(*program.pred(PredId(number)))?;
            table.component.push(0)?;
        }
        table.add_clauses(program)?;
        let components = components(alloc, program)?;
        table.note_components(&components)?;
        Ok(table)
    }

    /// Adds the clauses of a program.
    fn add_clauses(&mut self, program: &Program) -> Result<(), AllocError> {
        for number in 0..program.clauses() {
            self.add_clause(program.clause(number + 1))?;
        }
        Ok(())
    }

    /// Adds a clause.
    fn add_clause(&mut self, clause: &Clause) -> Result<(), AllocError> {
        let start = self.calls.len();
        for atom in clause.body.as_slice() {
            self.calls.push(atom.pred.0)?;
        }
        self.clauses.push(ClauseRow {
            head: clause.head.pred.0,
            start,
            count: self.calls.len().saturating_sub(start),
        })?;
        Ok(())
    }

    /// Notes the components of the predicates.
    fn note_components(&mut self, components: &Components) -> Result<(), AllocError> {
        for number in 0..components.count() {
            self.recursive.push(components.recursive(number))?;
            self.note_members(number, components.members(number));
        }
        Ok(())
    }

    /// Notes the component of its members.
    fn note_members(&mut self, component: u32, members: &[PredId]) {
        for member in members {
            if let Some(place) = self.component.get_mut(member.0 as usize) {
                *place = component;
            }
        }
    }

    /// Whether a component is recursive.
    pub fn is_recursive(&self, component: u32) -> bool {
        self.recursive.get(component as usize) == Some(&true)
    }

    /// The component of a predicate.
    pub fn component_of(&self, pred: u32) -> u32 {
        self.component.get(pred as usize).copied().unwrap_or(0)
    }

    /// The clause of a number, which counts from 1.
    pub fn clause(&self, number: u32) -> Option<ClauseRow> {
        let place = number.checked_sub(1)?;
        self.clauses.get(place as usize).copied()
    }

    /// The predicates of a clause's calls.
    pub fn calls_of(&self, clause: ClauseRow) -> &[u32] {
        let rest = self.calls.get(clause.start..).unwrap_or(&[]);
        rest.get(..clause.count).unwrap_or(rest)
    }
}
