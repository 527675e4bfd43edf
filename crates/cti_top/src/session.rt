//! The answer to a text of edits.

ghost use Rattle.std.specs.Prelude.{◌≡◌, ◌≤◌, length, IfOk, IfErr};
ghost use Rattle.cti_top.specs.Answers.{AnswersSession};
ghost use Rattle.cti_top.specs.Faults.{IsSessionFault};
ghost use Rattle.cti_top.specs.Sessions.{IsSessionOf, edit_number};

use crate::answer::{Answer, refused};
use crate::refusal::Subject;
use crate::source::{SourceFault, normal_number};
use crate::status::Status;
use cti_terms::Names;
use edit_texts::{EditKind, EditsFault, play};
use prolog_reader::read_text;
use std::alloc::{AllocError, Global};

/// The number of the refusal of what is no edit that can be done.
const BAD_EDIT: u32 = 18;

/// The number of the kind of an edit's refusal.
fn edit_number(kind: EditKind) -> u32
    ensures { result ≡ edit_number kind }
{
    match kind {
        EditKind::Norm(kind) => normal_number(kind),
        EditKind::BadEdit => BAD_EDIT,
    }
}

impl From<EditsFault> for SourceFault {
    ghost use Rattle.std.specs.Prelude.{◌≡◌};
    ghost use Rattle.cti_top.specs.Faults.{edits_fault};

    ghost from_gives = { λ fault e. e ≡ edits_fault fault };

    fn from(fault: EditsFault) -> SourceFault {
        match fault {
            EditsFault::Refused { kind, at } => SourceFault::Refused {
                kind: edit_number(kind),
                at,
            },
            EditsFault::Memory => SourceFault::Memory,
        }
    }
}

/// What the edits of a text print.
fn lines_of(alloc: Global, bytes: &[u8]) -> Result<Vec<u8>, SourceFault>
    requires short { length bytes.now ≤ 1048576 }
    ensures lines { IfOk result (λ text. IsSessionOf bytes.now text.items) }
    ensures refused { IfErr result (λ fault. IsSessionFault bytes.now fault) }
{
    let mut names = Names::new(alloc);
    let text = read_text(alloc, bytes, &mut names)?;
    Ok(play(alloc, text.clauses, &mut names)?)
}

/// The answer to a text of edits: what they tell, or why they are refused.
pub fn session_of(alloc: Global, bytes: &[u8]) -> Result<Answer, AllocError>
    requires short { length bytes.now ≤ 1048576 }
    ensures { IfOk result (λ a. AnswersSession bytes.now a.status a.text.items) }
{
    match lines_of(alloc, bytes) {
        Ok(text) => Ok(Answer {
            status: Status::Done,
            text,
        }),
        Err(SourceFault::Refused { kind, at }) => {
            refused(alloc, Subject::Program, bytes, kind, at)
        }
        Err(SourceFault::Memory) => Err(AllocError),
    }
}
