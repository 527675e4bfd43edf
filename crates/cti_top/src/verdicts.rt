//! The line that says whether a certificate is valid.

ghost use Rattle.std.specs.Prelude.{◌≡◌, IfOk};
ghost use Rattle.cert_checker.specs.declared.verdict.Verdict.TheVariants.{No as Refuted};
ghost use Rattle.cti_top.specs.Verdicts.{reason_number, verdict_line};

use crate::refusal::push_field;
use cert_checker::{Reason, Verdict};
use itoa::Buffer;
use std::alloc::{AllocError, Global};

/// The number of a reason, from 1 to 11.
fn reason_number(reason: Reason) -> u32
    ensures { result ≡ reason_number reason }
{
    match reason {
        Reason::Version => 1,
        Reason::Missing => 2,
        Reason::Extra => 3,
        Reason::Shape => 4,
        Reason::SizeRow => 5,
        Reason::Measure => 6,
        Reason::Ground => 7,
        Reason::Precondition => 8,
        Reason::Mode => 9,
        Reason::Refutation => 10,
        Reason::Wide => 11,
    }
}

/// The line `no(Line,Reason).` with its newline.
fn no_text(alloc: Global, line: u64, reason: Reason) -> Result<Vec<u8>, AllocError>
    ensures { IfOk result (λ text. text.items ≡ verdict_line (Refuted line reason)) }
{
    let mut text = Vec::from_slice(alloc, b"no(")?;
    text.extend_from_slice(Buffer::new().format(line).as_bytes())?;
    push_field(&mut text, u128::from(reason_number(reason)))?;
    text.extend_from_slice(b").\n")?;
    Ok(text)
}

/// The line `yes.`, or `no(Line,Reason).`, with its newline. Lines count from 1, and reasons are numbered from 1 to 11,
/// in their order.
pub fn verdict_text(alloc: Global, v: Verdict) -> Result<Vec<u8>, AllocError>
    ensures { IfOk result (λ text. text.items ≡ verdict_line v) }
{
    match v {
        Verdict::Yes => Vec::from_slice(alloc, b"yes.\n"),
        Verdict::No { line, reason } => no_text(alloc, line, reason),
    }
}
