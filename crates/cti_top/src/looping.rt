//! The answer to a query of a program where a loop of it is looked for.

ghost use Rattle.std.specs.Prelude.{◌≡◌, ◌<◌, ◌≤◌, ◌++◌, ℕ, List, None, codes, decimal, flat_map, length, position, IfOk, OnOk};
ghost use Rattle.std.specs.List.{AllByRecursion};
ghost use Rattle.certificate.specs.Text.{positions_text};
ghost use Rattle.cti_terms.specs.declared.predicates.Pred.{Pred as ThePred};
ghost use Rattle.cti_terms.specs.Lifts.{IsGoalOf};
ghost use Rattle.clause_normal.specs.Numbering.{is_equality};
ghost use Rattle.cti_top.specs.Answers.{looked_line, looked_status, AnswersLoop};
ghost use Rattle.cti_top.specs.Known.{known_of, NamesBuiltins};
ghost use Rattle.cti_top.specs.Loops.{loop_line, no_loop_line, IsTextOfLoop};
ghost use Rattle.cti_top.specs.Runs.{IsKnown};

use crate::answer::{Answer, refused};
use crate::querying::query_in;
use crate::refusal::Subject;
use crate::source::{Source, SourceFault};
use crate::status::Status;
use cti_terms::Goal;
use itoa::Buffer;
use loop_finder::{Looked, find};
use std::alloc::{AllocError, Global};

/// The status that goes with what was found.
fn status_of(looked: &Looked) -> Status
    ensures { result ≡ looked_status looked.now }
{
    match looked {
        Looked::Loop { .. } => Status::Done,
        Looked::NoLoop { .. } => Status::No,
        Looked::Stopped => Status::Stopped,
    }
}

/// Appends the numbers, each with a comma before it.
fn push_others(text: &mut Vec<u8>, numbers: &[u32]) -> Result<(), AllocError>
    ensures { OnOk result (text.new.items ≡ text.old.items ++ flat_map
        (λ n. codes "," ++ decimal n) numbers.now) }
{
    for number in numbers {
        text.push(b',')?;
        text.extend_from_slice(Buffer::new().format(*number).as_bytes())?;
    }
    Ok(())
}

/// Appends a list of numbers.
fn push_numbers(text: &mut Vec<u8>, numbers: &[u32]) -> Result<(), AllocError>
    ensures { OnOk result (text.new.items ≡ text.old.items ++ positions_text numbers.now) }
{
    let Some((first, others)) = numbers.split_first() else {
        return text.extend_from_slice(b"[]");
    };
    text.push(b'[')?;
    text.extend_from_slice(Buffer::new().format(*first).as_bytes())?;
    push_others(text, others)?;
    text.push(b']')?;
    Ok(())
}

/// The line of a loop, with its newline.
fn loop_text(alloc: Global, before: &[u32], cycle: &[u32]) -> Result<Vec<u8>, AllocError>
    ensures { IfOk result (λ text. text.items ≡ loop_line before.now cycle.now) }
{
    let mut text = Vec::from_slice(alloc, b"loop(")?;
    push_numbers(&mut text, before)?;
    text.push(b',')?;
    push_numbers(&mut text, cycle)?;
    text.extend_from_slice(b").\n")?;
    Ok(text)
}

/// The line that says among how many derivations there is no loop, with its newline.
fn no_loop_text(alloc: Global, steps: u64) -> Result<Vec<u8>, AllocError>
    ensures { IfOk result (λ text. text.items ≡ no_loop_line steps) }
{
    let mut text = Vec::from_slice(alloc, b"no_loop(")?;
    text.extend_from_slice(Buffer::new().format(steps).as_bytes())?;
    text.extend_from_slice(b").\n")?;
    Ok(text)
}

/// The line of what was found, with its newline.
fn looked_text(alloc: Global, looked: &Looked) -> Result<Vec<u8>, AllocError>
    ensures { IfOk result (λ text. text.items ≡ looked_line looked.now) }
{
    match looked {
        Looked::Loop { before, cycle } => loop_text(alloc, before, cycle),
        Looked::NoLoop { steps } => no_loop_text(alloc, *steps),
        Looked::Stopped => Vec::from_slice(alloc, b"stopped(100000).\n"),
    }
}

/// The answer to a goal of a program: the first loop of it, or that there is none.
fn looked(alloc: Global, source: &Source, goal: &Goal, depth: u32) -> Result<Answer, AllocError>
    requires goal { IsGoalOf source.now.program goal.now }
    requires first { 1 ≤ depth }
    requires last { depth ≤ 12 }
    ensures { IfOk result (λ a. IsTextOfLoop source.now.program goal.now depth a.status a.text.items) }
{
    let looked = find(alloc, &source.program, goal, depth)?;
    Ok(Answer {
        status: status_of(&looked),
        text: looked_text(alloc, &looked)?,
    })
}

/// The answer to a query of a program: the first loop of it, or that there is none, or why it is refused.
pub fn loop_of(
    alloc: Global,
    mut source: Source,
    query: &[u8],
    depth: u32,
) -> Result<Answer, AllocError>
    requires known { AllByRecursion
        (λ (q : ThePred). q.name.0 < length source.names) source.program.preds }
    requires room { position (is_equality source.names) source.program.preds ≡ None
        → length source.program.clauses < 16385 }
    requires arithmetic { NamesBuiltins source.names source.program }
    requires first { 1 ≤ depth }
    requires last { depth ≤ 12 }
    ensures { IfOk result (λ a. (bytes : List ℕ) → IsKnown bytes (known_of source)
        → AnswersLoop bytes query.now depth a.status a.text.items) }
{
    match query_in(alloc, &mut source, query) {
        Ok(goal) => looked(alloc, &source, &goal, depth),
        Err(SourceFault::Refused { kind, at }) => refused(alloc, Subject::Query, query, kind, at),
        Err(SourceFault::Memory) => Err(AllocError),
    }
}
