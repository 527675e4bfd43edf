//! What is wrong with the modes of a certificate.

/// Why the modes of a predicate do not hold.
#[derive(Clone, Copy, Debug, PartialEq, Eq)]
pub enum ModeReason {
    /// A clause of the predicate gives a row that its ground rows lack: reason 7 of a certificate's faults.
    Ground,
    /// A precondition of the predicate breaks its rule: reason 8.
    Precondition,
    /// A mode is in no precondition with all upper rows: reason 9.
    Mode,
}

/// The first predicate whose modes do not hold, and the first reason why.
#[derive(Clone, Copy, Debug, PartialEq, Eq)]
pub struct ModeFault {
    /// The line of the predicate's modes, from 1 on.
    pub line: u64,
    pub reason: ModeReason,
}
