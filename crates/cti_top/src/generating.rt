//! The answer to a generated program: how many predicates, clauses and modes it has.

ghost use Rattle.std.specs.Prelude.{◌≡◌, ◌<◌, ◌≤◌, ℕ, List, length, IfOk};
ghost use Rattle.std.specs.List.{AllByRecursion};
ghost use Rattle.cti_terms.specs.declared.predicates.Pred.{Pred as ThePred};
ghost use Rattle.prolog_reader.specs.Meanings.{table_of};
ghost use Rattle.cti_top.specs.Programs.{IsProgramOf};
ghost use Rattle.cti_top.specs.Summary.{modes_in, mode_count, summary_line, IsSummary};

use crate::answer::Answer;
use crate::refusal::push_field;
use crate::source::Source;
use crate::status::Status;
use certificate::Fact;
use itoa::Buffer;
use report::infer;
use std::alloc::{AllocError, Global};
use term_size::NormName;

/// How many modes a fact prints.
fn modes_in(fact: &Fact) -> usize
    ensures { result ≡ modes_in fact.now }
{
    match fact {
        Fact::Terminates { modes, .. } => modes.len(),
        _ => 0,
    }
}

/// How many modes facts print.
fn mode_count(facts: &[Fact]) -> u128
    ensures { result ≡ mode_count facts.now }
{
    let mut count: u128 = 0;
    for fact in facts {
        count += modes_in(fact) as u128;
    }
    count
}

/// The line `generated(N,Clauses,Modes).` with its newline.
fn summary_text(
    alloc: Global,
    predicates: u32,
    clauses: u32,
    modes: u128,
) -> Result<Vec<u8>, AllocError>
    ensures { IfOk result (λ text. text.items ≡ summary_line predicates clauses modes) }
{
    let mut text = Vec::from_slice(alloc, b"generated(")?;
    text.extend_from_slice(Buffer::new().format(predicates).as_bytes())?;
    push_field(&mut text, u128::from(clauses))?;
    push_field(&mut text, modes)?;
    text.extend_from_slice(b").\n")?;
    Ok(text)
}

/// The answer to the generated program of this many predicates, which was read.
pub fn gen_of(alloc: Global, source: &Source, predicates: u32) -> Result<Answer, AllocError>
    requires known { AllByRecursion
        (λ (q : ThePred). q.name.0 < length source.now.names) source.now.program.preds }
    ensures { IfOk result (λ a. (a.status ≡ Status.Done)
        × ((bytes : List ℕ) → IsProgramOf bytes source.now.names source.now.program
        (table_of source.now.ops) → IsSummary bytes predicates a.text.items)) }
{
    let certificate = infer(alloc, &source.program, &source.names, NormName::Term)?;
    let modes = mode_count(certificate.facts.as_slice());
    Ok(Answer {
        status: Status::Done,
        text: summary_text(alloc, predicates, source.program.clauses(), modes)?,
    })
}
