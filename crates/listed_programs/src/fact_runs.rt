//! Where the facts of each predicate stand.

use crate::listed::Listed;
use certificate::PredText;
use std::alloc::{AllocError, Global};

/// The first of a predicate's facts, and how many there are.
#[derive(Clone, Copy)]
pub struct Run {
    /// The place of the first fact, counted from 0.
    pub start: usize,
    /// How many facts there are.
    pub count: usize,
}

/// The facts of one kind of each predicate, where they stand in the order of the predicates.
pub struct FactRuns {
    runs: Vec<Run>,
    /// The predicate whose facts stand last.
    pred: u32,
}

impl Drop for FactRuns {
    fn drop(self) {
        let FactRuns { runs: _, pred: _ } = self;
    }
}

impl FactRuns {
    /// No facts, for this number of predicates.
    pub fn new(alloc: Global, preds: usize) -> Result<FactRuns, AllocError> {
        Ok(FactRuns {
            runs: vec![in alloc; Run { start: 0, count: 0 }; preds]?,
            pred: 0,
        })
    }

    /// Adds the fact at this place, of a predicate with this text, which is the last one or one after it.
    pub fn add(&mut self, listed: &Listed, text: &PredText, place: usize) {
        for _ in self.pred as usize..self.runs.len() {
            if listed.is_pred(self.pred, text.name.as_slice(), text.arity) {
                break;
            }
            self.pred = self.pred.saturating_add(1);
        }
        if let Some(run) = self.runs.get_mut(self.pred as usize) {
            if run.count == 0 {
                run.start = place;
            }
            run.count = run.count.saturating_add(1);
        }
    }

    /// The facts of a predicate.
    pub fn of(&self, pred: u32) -> Run {
        match self.runs.get(pred as usize) {
            Some(run) => *run,
            None => Run { start: 0, count: 0 },
        }
    }
}
