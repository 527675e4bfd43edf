//! What is answered to a certificate.

use crate::reason::Reason;

/// What is answered to a certificate of a program.
#[derive(Clone, Copy, PartialEq, Eq)]
pub enum Verdict {
    /// The certificate is valid.
    Yes,
    /// The fact of this line, counted from 1, does not hold, and why. Where a fact is missing, the line is that after
    /// the last.
    No { line: u64, reason: Reason },
}
