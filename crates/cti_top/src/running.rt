//! The answer to a query of a program.

ghost use Rattle.std.specs.Prelude.{◌≡◌, ◌<◌, ℕ, List, None, length, position, IfOk};
ghost use Rattle.std.specs.List.{AllByRecursion};
ghost use Rattle.cti_terms.specs.declared.predicates.Pred.{Pred as ThePred};
ghost use Rattle.cti_terms.specs.Lifts.{IsGoalOf};
ghost use Rattle.clause_normal.specs.Numbering.{is_equality};
ghost use Rattle.cti_top.specs.Answers.{AnswersQuery, status_of};
ghost use Rattle.cti_top.specs.Known.{known_of, NamesBuiltins};
ghost use Rattle.cti_top.specs.Runs.{IsKnown, IsTextOfRun};

use crate::answer::{Answer, refused};
use crate::querying::query_in;
use crate::refusal::Subject;
use crate::source::{Source, SourceFault};
use crate::status::Status;
use cti_terms::Goal;
use ld_resolver::Ending;
use std::alloc::{AllocError, Global};
use term_text::text_of_run;

/// The status of a run that ended so.
fn status_of(ending: Ending) -> Status
    ensures { result ≡ status_of ending }
{
    match ending {
        Ending::Finished => Status::Done,
        Ending::Stopped => Status::Stopped,
        Ending::Overflow => Status::Overflow,
    }
}

/// The answer to a goal of a program: its run.
fn ran(alloc: Global, source: &Source, goal: &Goal, steps: u64) -> Result<Answer, AllocError>
    requires { IsGoalOf source.now.program goal.now }
    ensures { IfOk result (λ a. IsTextOfRun source.now.names source.now.program goal.now steps a.status a.text.items) }
{
    let ran = text_of_run(alloc, &source.names, &source.program, goal, steps)?;
    Ok(Answer {
        status: status_of(ran.ending),
        text: ran.text,
    })
}

/// The answer to a query of a program: its run, or why it is refused.
pub fn run_of(
    alloc: Global,
    mut source: Source,
    query: &[u8],
    steps: u64,
) -> Result<Answer, AllocError>
    requires known { AllByRecursion
        (λ (q : ThePred). q.name.0 < length source.names) source.program.preds }
    requires room { position (is_equality source.names) source.program.preds ≡ None
        → length source.program.clauses < 16385 }
    requires arithmetic { NamesBuiltins source.names source.program }
    ensures { IfOk result (λ a. (bytes : List ℕ) → IsKnown bytes (known_of source)
        → AnswersQuery bytes query.now steps a.status a.text.items) }
{
    match query_in(alloc, &mut source, query) {
        Ok(goal) => ran(alloc, &source, &goal, steps),
        Err(SourceFault::Refused { kind, at }) => refused(alloc, Subject::Query, query, kind, at),
        Err(SourceFault::Memory) => Err(AllocError),
    }
}
