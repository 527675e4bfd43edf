//! A text to be written, and the status that it goes with.

ghost use Rattle.std.specs.Prelude.{◌≡◌, ◌≤◌, length, min, IfOk};
ghost use Rattle.cti_top.specs.Answers.{RefusesAt};
ghost use Rattle.cti_top.specs.Refusal.{refusal_line};

use crate::places::position_of;
use crate::refusal::{Subject, refusal_text};
use crate::source::TOO_LONG;
use crate::status::Status;
use std::alloc::{AllocError, Global};

/// A text to be written, and the status that it goes with.
#[derive(Drop)]
pub struct Answer {
    pub status: Status,
    pub text: Vec<u8>,
}

/// The answer that refuses a text that is too long.
pub fn too_long(alloc: Global, subject: Subject) -> Result<Answer, AllocError>
    ensures { IfOk result (λ a. (a.status ≡ Status.Refused)
        × (a.text.items ≡ refusal_line subject 1 1 8)) }
{
    Ok(Answer {
        status: Status::Refused,
        text: refusal_text(alloc, subject, 1, 1, TOO_LONG)?,
    })
}

/// The answer that refuses a text for a fault of this kind at this byte.
pub fn refused(
    alloc: Global,
    subject: Subject,
    text: &[u8],
    kind: u32,
    at: u32,
) -> Result<Answer, AllocError>
    requires { min at (length text.now) ≤ 1048576 }
    ensures { IfOk result (λ a. RefusesAt subject text.now kind at a.status a.text.items) }
{
    let position = position_of(text, at);
    Ok(Answer {
        status: Status::Refused,
        text: refusal_text(alloc, subject, position.line, position.column, kind)?,
    })
}
