//! The search along the calls.

ghost use Rattle.std.specs.Prelude.{◌≡◌, ◌-◌, ◌<◌, ◌≤◌, IfOk, OnOk, length, reverse, [], Some, slice_get};
ghost use Rattle.call_components.specs.Marked.{mark_of, IsSeen};
ghost use Rattle.call_components.specs.Search.{joined, IsIdle, IsFollowing, KeepsSeen, work, AreNumbers};
ghost use Rattle.call_components.specs.Table.{AreWithin};

use crate::marks::{Mark, Marks};
use crate::pred_list::Preds;
use crate::pred_lists::PredLists;
use cti_terms::PredId;
use std::alloc::{AllocError, Global};

/// Open predicates that reach each other, up to where the next segment begins.
#[derive(Clone, Copy)]
pub(crate) struct Segment {
    /// The place of its first predicate in the row of open predicates.
    pub(crate) first: usize,
    /// The place of its first call among those that wait.
    pub(crate) waiting: usize,
}

/// The state of the search for components, with stacks of its own in the place of recursion.
///
/// The open predicates are cut into segments, each of which reaches the next. A call to an open predicate joins all
/// segments from that one's on. A last segment none of whose calls waits is a component.
///
/// Source: path-based search for strong components, Dijkstra 1976 and Gabow 2000.
#[derive(Drop)]
pub(crate) struct Search {
    pub(crate) marks: Marks,
    /// The predicates that were opened and not closed yet, in the order in which they were opened.
    pub(crate) open: Preds,
    /// The callees of the calls of open predicates that were not followed yet.
    pub(crate) waiting: Preds,
    /// Where `open` and `waiting` are cut.
    pub(crate) segments: Vec<Segment>,
    /// How many components were closed.
    pub(crate) count: u32,
}

/// Joins the last segments, down to the one that has this place.
fn join(segments: &mut Vec<Segment>, place: usize)
    ensures { reverse segments.new.items ≡ joined place (reverse segments.old.items) }
{
    while let Some(last) = segments.last() {
        if last.first <= place {
            return;
        }
        segments.pop();
    }
}

impl Search {
    /// The search before its first step.
    pub(crate) fn new(alloc: Global, table: &PredLists) -> Result<Search, AllocError>
        requires { AreWithin (length table.now) table.now }
        ensures start { IfOk result (IsIdle table.now) }
        ensures empty { IfOk result (λ search. search.segments.items ≡ []) }
    {
        let marks = Marks::new(alloc, table.count())?;
        Ok(Search {
            marks,
            open: Preds::new(alloc),
            waiting: Preds::new(alloc),
            segments: Vec::new(alloc),
            count: 0,
        })
    }

    /// Follows a call to this predicate, from the last segment.
    pub(crate) fn follow(&mut self, table: &PredLists, callee: PredId) -> Result<(), AllocError>
        requires known { callee.0 < length table.now }
        requires following { IsFollowing table.now callee.0 self.old }
        ensures ok { OnOk result (IsIdle table.now self.new) }
        ensures seen { OnOk result (IsSeen (mark_of self.new.marks callee.0)) }
        ensures kept { OnOk result (KeepsSeen self.old.marks self.new.marks) }
        ensures less { OnOk result (work table.now self.new ≤ work table.now self.old) }
    {
        match self.marks.of(callee) {
            Mark::Unseen => self.open(table, callee),
            Mark::Open(place) => {
                join(&mut self.segments, place);
                Ok(())
            }
            Mark::Closed(_) => Ok(()),
        }
    }

    /// Opens a predicate, as a segment of its own.
    fn open(&mut self, table: &PredLists, pred: PredId) -> Result<(), AllocError>
        requires known { pred.0 < length table.now }
        requires following { IsFollowing table.now pred.0 self.old }
        requires fresh { mark_of self.old.marks pred.0 ≡ Mark.Unseen }
        ensures ok { OnOk result (IsIdle table.now self.new) }
        ensures seen { OnOk result (IsSeen (mark_of self.new.marks pred.0)) }
        ensures kept { OnOk result (KeepsSeen self.old.marks self.new.marks) }
        ensures less { OnOk result (work table.now self.new ≤ work table.now self.old) }
    {
        let first = self.open.len();
        let waiting = self.waiting.len();
        self.segments.push(Segment { first, waiting })?;
        self.marks.set(pred, Mark::Open(first));
        self.open.push(pred)?;
        self.waiting.extend(table.row(pred.0))?;
        Ok(())
    }

    /// One step from the last segment: its next call, or its end, which makes it the next component.
    fn step(&mut self, table: &PredLists, last: Segment) -> Result<(), AllocError>
        requires last { slice_get self.old.segments.items (length self.old.segments.items - 1)
            ≡ Some last }
        requires idle { IsIdle table.now self.old }
        ensures ok { OnOk result (IsIdle table.now self.new) }
        ensures kept { OnOk result (KeepsSeen self.old.marks self.new.marks) }
        ensures less { OnOk result (work table.now self.new < work table.now self.old) }
    {
        match self.waiting.pop_above(last.waiting) {
            Some(callee) => self.follow(table, callee),
            None => {
                self.segments.pop();
                self.marks.close(self.open.tail(last.first), self.count);
                self.open.truncate(last.first);
                self.count += 1;
                Ok(())
            }
        }
    }

    /// Steps until nothing is open.
    pub(crate) fn finish(&mut self, table: &PredLists) -> Result<(), AllocError>
        requires { IsIdle table.now self.old }
        ensures ok { OnOk result (IsIdle table.now self.new) }
        ensures kept { OnOk result (KeepsSeen self.old.marks self.new.marks) }
        ensures empty { OnOk result (self.new.segments.items ≡ []) }
    {
        while let Some(last) = self.segments.last().copied() {
            self.step(table, last)?;
        }
        Ok(())
    }
}
