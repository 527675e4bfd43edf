//! The answer to a program: the certificate of its modes.

ghost use Rattle.std.specs.Prelude.{◌≡◌, ◌<◌, List, ℕ, length, IfOk};
ghost use Rattle.std.specs.List.{AllByRecursion};
ghost use Rattle.cti_terms.specs.declared.predicates.Pred.{Pred as ThePred};
ghost use Rattle.prolog_reader.specs.Meanings.{table_of};
ghost use Rattle.cti_top.specs.Inferred.{IsInferred};
ghost use Rattle.cti_top.specs.Programs.{IsProgramOf};

use crate::answer::Answer;
use crate::source::Source;
use crate::status::Status;
use report::infer_text;
use std::alloc::{AllocError, Global};
use term_size::NormName;

/// The answer to a program that was read: the certificate of its modes by a norm.
pub fn infer_of(alloc: Global, source: &Source, norm: NormName) -> Result<Answer, AllocError>
    requires known { AllByRecursion
        (λ (q : ThePred). q.name.0 < length source.now.names) source.now.program.preds }
    ensures { IfOk result (λ a. (a.status ≡ Status.Done)
        × ((bytes : List ℕ) → IsProgramOf bytes source.now.names source.now.program
        (table_of source.now.ops) → IsInferred norm bytes a.text.items)) }
{
    Ok(Answer {
        status: Status::Done,
        text: infer_text(alloc, &source.program, &source.names, norm)?,
    })
}
