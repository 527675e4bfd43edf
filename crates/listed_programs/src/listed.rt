//! A program as it is looked at.

use crate::places::Places;
use crate::table::ProgramTable;
use cti_terms::{Clause, Names, Program};
use warnings::text_of;

/// A program, its table, where its clauses stand, and its names.
pub struct Listed {
    pub program: Program,
    pub table: ProgramTable,
    pub places: Places,
    pub names: Names,
}

impl Drop for Listed {
    fn drop(self) {
        let Listed {
            program: _,
            table: _,
            places: _,
            names: _,
        } = self;
    }
}

/// The predicates of integers, each with two arguments: the one that computes, and the comparisons.
const INTEGER_GOALS: [&[u8]; 7] = [b"is", b"=:=", b"=\\=", b"<", b"=<", b">", b">="];

/// A goal of integers, which needs no clause.
#[derive(Clone, Copy, PartialEq, Eq)]
pub enum IntegerGoal {
    /// One that computes an integer.
    Computing,
    /// One that computes or compares integers. No loop is found beyond it.
    OfIntegers,
}

impl Listed {
    /// The clause of a number, which counts from 1.
    pub fn clause(&self, number: u32) -> Option<&Clause> {
        if number >= 1 && number <= self.program.clauses() {
            Some(self.program.clause(number))
        } else {
            None
        }
    }

    /// All arguments of a predicate, as a set.
    pub fn all_arguments(&self, pred: u32) -> u32 {
        match self.table.preds.get(pred as usize) {
            Some(pred) => 1u32.checked_shl(pred.arity).unwrap_or(0).saturating_sub(1),
            None => 0,
        }
    }

    /// Whether a predicate stands for a disjunction of the text.
    pub fn is_disjunction(&self, pred: u32) -> bool {
        self.name_of(pred).starts_with(b"$or")
    }

    /// Whether a call of a predicate is such a goal.
    pub fn is_integer_goal(&self, pred: u32, goal: IntegerGoal) -> bool {
        let count = match goal {
            IntegerGoal::Computing => 1,
            IntegerGoal::OfIntegers => INTEGER_GOALS.len(),
        };
        INTEGER_GOALS
            .iter()
            .take(count)
            .any(|name| self.is_pred(pred, *name, 2))
    }

    /// The text of a predicate's name.
    pub fn name_of(&self, pred: u32) -> &[u8] {
        match self.table.preds.get(pred as usize) {
            Some(pred) => text_of(&self.names, pred.name),
            None => b"?",
        }
    }

    /// Whether a predicate has this text.
    pub fn is_pred(&self, pred: u32, name: &[u8], arity: u32) -> bool {
        match self.table.preds.get(pred as usize) {
            Some(known) => known.arity == arity && text_of(&self.names, known.name) == name,
            None => false,
        }
    }

    /// The predicate whose text this is, looked for among all.
    pub fn pred_of(&self, name: &[u8], arity: u32) -> Option<u32> {
        let mut number = 0u32;
        for pred in &self.table.preds {
            if pred.arity == arity && text_of(&self.names, pred.name) == name {
                return Some(number);
            }
            number = number.saturating_add(1);
        }
        None
    }
}
