//! Where the clauses and the calls of a program stand in its text.

use cti_terms::Names;
use prolog_reader::{ReadClause, ReadShape, ReadTerm};
use std::alloc::{AllocError, Global};
use warnings::{body_of, head_of, text_of};

/// The places of a clause of the program: of its head or its branch, and which of the calls' places are its own.
#[derive(Clone, Copy)]
struct ClausePlace {
    at: u32,
    start: usize,
    count: usize,
}

/// The place of a call, and which of the variables' places are its own. Those of a disjunction are its branches'.
#[derive(Clone, Copy)]
struct CallPlace {
    at: u32,
    start: usize,
    count: usize,
}

/// Where the clauses of a program stand, their calls, and the variables of these. A branch of a disjunction is a
/// clause, as in the program.
pub struct Places {
    clauses: Vec<ClausePlace>,
    calls: Vec<CallPlace>,
    variables: Vec<u32>,
}

impl Drop for Places {
    fn drop(self) {
        let Places {
            clauses: _,
            calls: _,
            variables: _,
        } = self;
    }
}

/// Whether a term joins two others by a name.
fn is_joined(names: &Names, term: &ReadTerm, joiner: &[u8]) -> bool {
    match &term.shape {
        ReadShape::Fun(name, args) => args.len() == 2 && text_of(names, *name) == joiner,
        _ => false,
    }
}

/// Whether a term is the goal that is none.
fn is_true(names: &Names, term: &ReadTerm) -> bool {
    match &term.shape {
        ReadShape::Fun(name, args) => {
            args.is_empty() && text_of(names, *name) == b"true".as_slice()
        }
        _ => false,
    }
}

/// Adds the parts of a term that a name joins, in the order of the text. A text nests at most 1,000 of them.
fn push_parts<'a>(
    names: &Names,
    term: &'a ReadTerm,
    joiner: &[u8],
    parts: &mut Vec<&'a ReadTerm>,
) -> Result<(), AllocError> {
    match &term.shape {
        ReadShape::Fun(_, args) if is_joined(names, term, joiner) => {
            for part in args {
                push_parts(names, part, joiner, parts)?;
            }
        }
        _ => parts.push(term)?,
    }
    Ok(())
}

/// Adds the places of a term's variables, in the order of the text. A text nests at most 1,000 terms.
fn push_variables(term: &ReadTerm, places: &mut Vec<u32>) -> Result<(), AllocError> {
    match &term.shape {
        ReadShape::Var(_) => places.push(term.at)?,
        ReadShape::Int(_) => {}
        ReadShape::Fun(_, args) => {
            for arg in args {
                push_variables(arg, places)?;
            }
        }
    }
    Ok(())
}

impl Places {
    /// The places of the clauses of a text.
    pub fn of(alloc: Global, names: &Names, clauses: &[ReadClause]) -> Result<Places, AllocError> {
        let mut places = Places {
            clauses: Vec::new(alloc),
            calls: Vec::new(alloc),
            variables: Vec::new(alloc),
        };
        for clause in clauses {
            if head_of(names, &clause.term).is_some() {
                places.add_clause(alloc, names, &clause.term)?;
            }
        }
        Ok(places)
    }

    /// Adds a clause of the text, and the branches of its disjunctions, each before what comes after it.
    fn add_clause(
        &mut self,
        alloc: Global,
        names: &Names,
        clause: &ReadTerm,
    ) -> Result<(), AllocError> {
        let Some(body) = body_of(names, clause) else {
            let start = self.calls.len();
            return self.push_clause(clause.at, start);
        };
        let mut waiting = Vec::new(alloc);
        self.add_body(alloc, names, clause.at, body, &mut waiting)?;
        // No body has more branches than the text has bytes.
        for _ in 0..u32::MAX {
            let Some(branch) = waiting.pop() else {
                break;
            };
            self.add_body(alloc, names, branch.at, branch, &mut waiting)?;
        }
        Ok(())
    }

    /// Adds a clause with this body, and puts the branches of its disjunctions on top of those that wait, the first one
    /// uppermost.
    fn add_body<'a>(
        &mut self,
        alloc: Global,
        names: &Names,
        at: u32,
        body: &'a ReadTerm,
        waiting: &mut Vec<&'a ReadTerm>,
    ) -> Result<(), AllocError> {
        let mut goals = Vec::new(alloc);
        push_parts(names, body, b",", &mut goals)?;
        let mut branches = Vec::new(alloc);
        let start = self.calls.len();
        for goal in &goals {
            if !is_true(names, goal) {
                self.push_call(names, goal)?;
            }
            if is_joined(names, goal, b";") {
                push_parts(names, goal, b";", &mut branches)?;
            }
        }
        push_reversed(&branches, waiting)?;
        self.push_clause(at, start)
    }

    /// Adds a call, with its variables.
    fn push_call(&mut self, names: &Names, goal: &ReadTerm) -> Result<(), AllocError> {
        let start = self.variables.len();
        if !is_joined(names, goal, b";") {
            push_variables(goal, &mut self.variables)?;
        }
        let count = self.variables.len().saturating_sub(start);
        self.calls.push(CallPlace {
            at: goal.at,
            start,
            count,
        })?;
        Ok(())
    }

    /// Adds a clause whose calls' places stand from one of them on.
    fn push_clause(&mut self, at: u32, start: usize) -> Result<(), AllocError> {
        let count = self.calls.len().saturating_sub(start);
        self.clauses.push(ClausePlace { at, start, count })?;
        Ok(())
    }

    /// The place of a clause in the text, in bytes from 0. The clause's number counts from 1.
    pub fn clause(&self, number: u32) -> Option<u32> {
        let place = number.checked_sub(1)?;
        Some(self.clauses.get(place as usize)?.at)
    }

    /// A call of a clause that has this many, where the text agrees. Both numbers count from 1.
    fn call_place(&self, number: u32, call: u32, count: usize) -> Option<CallPlace> {
        let place = number.checked_sub(1)?;
        let clause = self.clauses.get(place as usize)?;
        if clause.count != count || call as usize > count {
            return None;
        }
        let own = self.calls.get(clause.start..)?;
        own.get(call.checked_sub(1)? as usize).copied()
    }

    /// The place of a call of a clause, in bytes from 0; none if the clause has not `count` calls in the text. Both
    /// numbers count from 1.
    pub fn call(&self, number: u32, call: u32, count: usize) -> Option<u32> {
        Some(self.call_place(number, call, count)?.at)
    }

    /// The places of the variables of such a call, in bytes from 0 and in the order of the text.
    pub fn variables(&self, number: u32, call: u32, count: usize) -> &[u32] {
        let Some(place) = self.call_place(number, call, count) else {
            return &[];
        };
        let rest = self.variables.get(place.start..).unwrap_or(&[]);
        rest.get(..place.count).unwrap_or(rest)
    }
}

/// Adds terms to others, the last one first.
fn push_reversed<'a>(
    terms: &[&'a ReadTerm],
    others: &mut Vec<&'a ReadTerm>,
) -> Result<(), AllocError> {
    for term in terms.iter().rev() {
        others.push(*term)?;
    }
    Ok(())
}
