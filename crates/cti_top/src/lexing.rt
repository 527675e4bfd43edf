//! The answer to a program: the certificate of its modes by lists of mappings.

ghost use Rattle.std.specs.Prelude.{◌≡◌, ◌<◌, List, ℕ, length, IfOk};
ghost use Rattle.std.specs.List.{AllByRecursion};
ghost use Rattle.cti_terms.specs.declared.predicates.Pred.{Pred as ThePred};
ghost use Rattle.prolog_reader.specs.Meanings.{table_of};
ghost use Rattle.cti_top.specs.Lexed.{IsLexed};
ghost use Rattle.cti_top.specs.Programs.{IsProgramOf};

use crate::answer::Answer;
use crate::source::Source;
use crate::status::Status;
use lex_measures::infer;
use std::alloc::{AllocError, Global};

/// The answer to a program that was read: the certificate of its modes by lists of mappings.
pub fn lex_of(alloc: Global, source: &Source) -> Result<Answer, AllocError>
    requires known { AllByRecursion
        (λ (q : ThePred). q.name.0 < length source.now.names) source.now.program.preds }
    ensures { IfOk result (λ a. (a.status ≡ Status.Done)
        × ((bytes : List ℕ) → IsProgramOf bytes source.now.names source.now.program
        (table_of source.now.ops) → IsLexed bytes a.text.items)) }
{
    let certificate = infer(alloc, &source.program, &source.names)?;
    Ok(Answer {
        status: Status::Done,
        text: certificate.print(alloc)?,
    })
}
