//! Which call is to blame for a predicate without a mode.

use crate::cause::{Cause, Causes, Limit};
use crate::culprit::Culprit;
use crate::lacking::{CallAt, Found};
use crate::sizing::Sizing;
use certificate::{CertNorm, Fact};
use listed_programs::{ClauseRow, IntegerGoal, Listed, number_of};
use sequences::Sequence;
use std::alloc::{AllocError, Global};

/// A program, where it stands in its text, and what its certificate says.
#[derive(Clone, Copy)]
pub struct View<'p, 'c, 'f> {
    pub listed: &'p Listed,
    pub causes: &'c Causes,
    pub facts: &'f [Fact],
}

/// Why a predicate has no mode.
#[derive(Clone, Copy)]
pub enum Why {
    /// Nothing falls at one call.
    OneCall(Culprit),
    /// Nothing falls at all of these calls, the first of which is this fact.
    Calls { start: usize, points: u64 },
    /// Nothing falls at all of these calls, the first of which is this fact, and no order of measures does.
    Stuck { start: usize, points: u64 },
    /// No list of mappings descends at all of these calls.
    NoList { start: usize, points: u64 },
    Large(u64),
    Blown,
    /// A call is to this predicate, which has no mode.
    Callee(u32),
    /// A call lacks variables, even if all arguments of the query are known.
    Lacks(CallAt),
    /// A call lacks variables of which nothing is known.
    Needs(u32),
    /// No arguments are enough.
    Unmet,
    Unknown,
}

/// Why a predicate has no mode, and the byte of the text that shows it.
#[derive(Clone, Copy)]
pub struct Case {
    pub why: Why,
    pub at: Option<u32>,
}

impl<'p, 'f> View<'p, '_, 'f> {
    /// The norm of the certificate.
    pub fn sizing(self) -> Sizing<'p> {
        Sizing {
            names: &self.listed.names,
            norm: self.causes.norm,
        }
    }

    /// The truth rows that answers of a predicate may have.
    pub fn grounds(self, pred: u32) -> &'f [Fact] {
        let run = self.causes.grounds.of(pred);
        let rest = self.facts.get(run.start..).unwrap_or(&[]);
        rest.get(..run.count).unwrap_or(rest)
    }

    /// The modes of a predicate.
    pub fn modes_of(self, pred: u32) -> &'f [Sequence<u32>] {
        let Some(place) = self.causes.terminates(pred) else {
            return &[];
        };
        match self.facts.get(place) {
            Some(Fact::Terminates { modes, .. }) => modes.as_slice(),
            _ => &[],
        }
    }

    /// The first call of a clause that leaves its component for a predicate without a mode: the predicate, and the
    /// call's place.
    fn call_without_mode(self, number: u32, row: ClauseRow) -> Option<(u32, Option<u32>)> {
        let component = self.listed.table.component_of(row.head);
        let calls = self.listed.table.calls_of(row);
        for (place, callee) in calls.iter().enumerate() {
            let is_other = self.listed.table.component_of(*callee) != component;
            if is_other && self.modes_of(*callee).is_empty() {
                let call = number_of(place);
                let at = self.listed.places.call(number, call, calls.len());
                return Some((*callee, at));
            }
        }
        None
    }

    /// The first such call in the clauses of a component, as a case.
    fn callee_case(self, component: u32) -> Option<Case> {
        for (place, row) in self.listed.table.clauses.iter().enumerate() {
            if self.listed.table.component_of(row.head) == component
                && let Some((callee, at)) = self.call_without_mode(number_of(place), *row)
            {
                let why = Why::Callee(callee);
                return Some(Case { why, at });
            }
        }
        None
    }

    /// The place of a predicate's first clause.
    fn first_clause(self, pred: u32) -> Option<u32> {
        for (place, row) in self.listed.table.clauses.iter().enumerate() {
            if row.head == pred {
                return self.listed.places.clause(number_of(place));
            }
        }
        None
    }

    /// The place of the call of a point.
    pub fn point_place(self, place: usize) -> Option<u32> {
        let Some(Fact::Point { clause, call, .. }) = self.facts.get(place) else {
            return None;
        };
        let row = self.listed.table.clause(*clause)?;
        let count = self.listed.table.calls_of(row).len();
        self.listed.places.call(*clause, *call, count)
    }

    /// Whether this many points from a fact on are all of calls at which some values are kept, so that no order of
    /// measures falls at them either.
    fn are_stuck(self, start: usize, points: u64) -> bool {
        let rest = self.facts.get(start..).unwrap_or(&[]);
        let mut left = points;
        for fact in rest {
            if left == 0 {
                return true;
            }
            let Fact::Point { t, .. } = fact else {
                return false;
            };
            if *t < 1 {
                return false;
            }
            left = left.saturating_sub(1);
        }
        left == 0
    }

    /// Why nothing falls at this many calls, the first of which is this fact.
    fn refuted_case(self, start: usize, points: u64) -> Why {
        if let Some(culprit) = self.culprit(start, points) {
            return Why::OneCall(culprit);
        }
        if points == 1 {
            return Why::OneCall(Culprit {
                head: start,
                call: start,
            });
        }
        if self.causes.is_of_lists {
            return Why::NoList { start, points };
        }
        // `cti lex` is by term size, so points by another norm say nothing of it.
        if matches!(self.causes.norm, CertNorm::Term) && self.are_stuck(start, points) {
            return Why::Stuck { start, points };
        }
        Why::Calls { start, points }
    }

    /// The case of a predicate by the calls of its component that lack something.
    fn lacking_case(self, pred: u32, found: &Found, is_recursive: bool) -> Case {
        if let Some(call) = found.lacking.first() {
            let why = Why::Lacks(*call);
            return Case { why, at: call.at };
        }
        match found.unsure.first() {
            // Without recursion the only call that is not sure to get what it asks for does not get it.
            Some(call) if !is_recursive && found.unsure.len() == 1 => Case {
                why: Why::Needs(call.callee),
                at: call.at,
            },
            Some(call) => Case {
                why: Why::Unmet,
                at: call.at,
            },
            None => Case {
                why: Why::Unmet,
                at: self.first_clause(pred),
            },
        }
    }

    /// A reason; but where no arguments are enough for the measures that were found, and others were not looked for,
    /// why they were not.
    fn unless_given_up(self, component: u32, why: Why) -> Why {
        match (why, self.causes.limit_of(component)) {
            (Why::Unmet, Limit::Large(positions)) => Why::Large(positions),
            (Why::Unmet, Limit::Blown) => Why::Blown,
            (why, _) => why,
        }
    }

    /// The case of a predicate whose component has a measure, or needs none, and yet no mode.
    fn unmet_case(self, alloc: Global, pred: u32, has_measure: bool) -> Result<Case, AllocError> {
        let component = self.listed.table.component_of(pred);
        if let Some(case) = self.callee_case(component) {
            return Ok(case);
        }
        let is_recursive = self.listed.table.is_recursive(component);
        if is_recursive && !has_measure {
            let at = self.first_clause(pred);
            let why = Why::Unknown;
            return Ok(Case { why, at });
        }
        let found = self.lacking_in(alloc, component)?;
        let case = self.lacking_case(pred, &found, is_recursive);
        Ok(Case {
            why: self.unless_given_up(component, case.why),
            at: case.at,
        })
    }

    /// Whether a clause has such a goal.
    fn has_integer_goal(self, clause: u32, goal: IntegerGoal) -> bool {
        match self.listed.table.clause(clause) {
            Some(row) => {
                let calls = self.listed.table.calls_of(row);
                calls
                    .iter()
                    .any(|callee| self.listed.is_integer_goal(*callee, goal))
            }
            None => false,
        }
    }

    /// Whether the clause of one of these points, from this fact on, has such a goal.
    fn has_integer_goal_at(self, start: usize, points: u64, goal: IntegerGoal) -> bool {
        let mut left = points;
        for fact in self.facts.get(start..).unwrap_or(&[]) {
            if left == 0 {
                return false;
            }
            if let Fact::Point { clause, .. } = fact {
                if self.has_integer_goal(*clause, goal) {
                    return true;
                }
                left = left.saturating_sub(1);
            }
        }
        false
    }

    /// Whether the clause of one of the calls that a case speaks of has such a goal.
    pub fn is_behind(self, why: Why, goal: IntegerGoal) -> bool {
        match why {
            Why::OneCall(culprit) => {
                self.has_integer_goal_at(culprit.head, 1, goal)
                    || self.has_integer_goal_at(culprit.call, 1, goal)
            }
            Why::Calls { start, points }
            | Why::Stuck { start, points }
            | Why::NoList { start, points } => self.has_integer_goal_at(start, points, goal),
            _ => false,
        }
    }

    /// The place of the clause of a point.
    pub fn clause_place(self, place: usize) -> Option<u32> {
        match self.facts.get(place) {
            Some(Fact::Point { clause, .. }) => self.listed.places.clause(*clause),
            _ => None,
        }
    }

    /// The predicate of the head of a point's clause.
    pub fn head_at(self, place: usize) -> Option<u32> {
        match self.facts.get(place) {
            Some(Fact::Point { clause, .. }) => Some(self.listed.table.clause(*clause)?.head),
            _ => None,
        }
    }

    /// The case of a predicate where nothing falls at all of this many calls.
    fn case_at(self, start: usize, points: u64) -> Case {
        let why = self.refuted_case(start, points);
        let at = match why {
            Why::OneCall(culprit) => self.point_place(culprit.call),
            _ => self.point_place(start),
        };
        Case { why, at }
    }

    /// Why a predicate has no mode.
    pub fn case_of(self, alloc: Global, pred: u32) -> Result<Case, AllocError> {
        let component = self.listed.table.component_of(pred);
        let why = match (
            self.causes.of_component(component),
            self.causes.limit_of(component),
        ) {
            (Cause::Refuted { start, points }, _) => return Ok(self.case_at(start, points)),
            (Cause::Measure, _) => return self.unmet_case(alloc, pred, true),
            (Cause::None, Limit::Large(positions)) => Why::Large(positions),
            (Cause::None, Limit::Blown) => Why::Blown,
            (Cause::None, Limit::None) => return self.unmet_case(alloc, pred, false),
        };
        let at = self.first_clause(pred);
        Ok(Case { why, at })
    }
}
