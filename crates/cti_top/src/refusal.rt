//! The line that says why a text was refused.

ghost use Rattle.std.specs.Prelude.{◌≡◌, ◌++◌, IfOk, OnOk, decimal};
ghost use Rattle.cti_top.specs.Refusal.{subject_name, field, refusal_line};

use itoa::Buffer;
use std::alloc::{AllocError, Global};

/// What was refused.
#[derive(Clone, Copy, Debug, PartialEq, Eq)]
pub enum Subject {
    Program,
    Certificate,
    Query,
}

impl Subject {
    /// The word for it.
    fn name(self) -> &'static [u8]
        ensures { result.now ≡ subject_name self }
    {
        match self {
            Subject::Program => b"program",
            Subject::Certificate => b"certificate",
            Subject::Query => b"query",
        }
    }
}

/// Appends a comma and a number.
pub fn push_field(text: &mut Vec<u8>, number: u128) -> Result<(), AllocError>
    ensures { OnOk result (text.new.items ≡ text.old.items ++ field number) }
{
    text.extend_from_slice(b",")?;
    text.extend_from_slice(Buffer::new().format(number).as_bytes())
}

/// The line `refused(Subject,Line,Column,Kind).` with its newline. Lines and columns count from 1, and columns count
/// bytes.
pub fn refusal_text(
    alloc: Global,
    subject: Subject,
    line: u32,
    column: u32,
    kind: u32,
) -> Result<Vec<u8>, AllocError>
    ensures { IfOk result (λ text. text.items ≡ refusal_line subject line column kind) }
{
    let mut text = Vec::from_slice(alloc, b"refused(")?;
    text.extend_from_slice(subject.name())?;
    push_field(&mut text, u128::from(line))?;
    push_field(&mut text, u128::from(column))?;
    push_field(&mut text, u128::from(kind))?;
    text.extend_from_slice(b").\n")?;
    Ok(text)
}
