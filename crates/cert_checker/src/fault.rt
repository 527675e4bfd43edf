//! Facts that do not hold.

use crate::reason::Reason;

/// The line of a fact that does not hold, counted from 1, and why it does not.
#[derive(Clone, Copy, PartialEq, Eq, Debug)]
pub struct Fault {
    pub line: u64,
    pub reason: Reason,
}
