//! How far the search has come with each predicate.

ghost use Rattle.std.specs.Prelude.{◌≡◌, ◌<◌, IfOk, OnErr, All, length, map, replicate, slice_set, slice_get, Some};
ghost use Rattle.call_components.specs.Numbers.{number_of};
ghost use Rattle.call_components.specs.Marked.{mark_of, closed_by, IsClosed};

use cti_terms::PredId;
use std::alloc::{AllocError, Global};
use std::marker::Model;

/// How far the search has come with a predicate.
#[derive(Clone, Copy)]
pub(crate) enum Mark {
    /// Not met yet.
    Unseen,
    /// Open: at this place of the row of open predicates.
    Open(usize),
    /// In the component of this number.
    Closed(u32),
}

/// A mark for each predicate. Contracts see the list.
#[derive(Drop)]
pub(crate) struct Marks {
    items: Vec<Mark>,
}

impl Model for Marks {
    ghost use Rattle.std.specs.Prelude.{List};
    ghost use Rattle.call_components.specs.declared.marks.Mark.{Mark};

    ghost Value = { List Mark };

    ghost view = { λ a. a.items.items };
}

impl Marks {
    /// The given number of predicates, none of which was met.
    pub(crate) fn new(alloc: Global, preds: u32) -> Result<Marks, AllocError>
        ensures { IfOk result (λ marks. marks ≡ replicate preds Mark.Unseen) }
    {
        let mut items = Vec::new(alloc);
        for _i in 0..preds {
            items.push(Mark::Unseen)?;
        }
        Ok(Marks { items })
    }

    /// The mark of a predicate.
    pub(crate) fn of(&self, pred: PredId) -> Mark
        requires { pred.0 < length self.now }
        ensures { result ≡ mark_of self.now pred.0 }
    {
        self.items[pred.0 as usize]
    }

    /// Marks a predicate.
    pub(crate) fn set(&mut self, pred: PredId, mark: Mark)
        requires { pred.0 < length self.old }
        ensures { self.new ≡ slice_set self.old pred.0 mark }
    {
        self.items[pred.0 as usize] = mark;
    }

    /// Closes these predicates with this number.
    pub(crate) fn close(&mut self, preds: &[PredId], number: u32)
        requires { All (λ pred. pred.0 < length self.old) preds.now }
        ensures { self.new ≡ closed_by (map number_of preds.now) number self.old }
    {
        for pred in preds {
            self.items[pred.0 as usize] = Mark::Closed(number);
        }
    }

    /// The number of each predicate, all of which are closed.
    pub(crate) fn numbers(&self, alloc: Global) -> Result<Vec<u32>, AllocError>
        requires { All IsClosed self.now }
        ensures { IfOk result (λ numbers. self.now ≡ map Mark.Closed numbers.items) }
    {
        let mut numbers = Vec::new(alloc);
        for mark in &self.items {
            match mark {
                Mark::Closed(number) => numbers.push(*number)?,
                _ => unreachable!(),
            }
        }
        Ok(numbers)
    }
}
