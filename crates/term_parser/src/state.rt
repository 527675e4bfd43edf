//! The states of the parser, and where a token leads.

use crate::frame::Head;
use crate::part::Part;
use cti_terms::Name;

/// A name that was read, in a term of the given bound.
#[derive(Clone, Copy)]
pub struct NameRead {
    pub bound: u32,
    pub at: u32,
    pub name: Name,
}

/// What was read last, in a term of the given bound: the highest priority that it may have. Places are bytes from 0.
#[derive(Drop)]
pub enum State {
    /// An operand begins here.
    ExpectOperand {
        bound: u32,
    },
    /// A name.
    AfterName {
        read: NameRead,
    },
    /// `[]` or `{}`.
    AfterBrackets {
        bound: u32,
        head: Head,
    },
    /// `[`
    AfterOpenList {
        bound: u32,
        at: u32,
    },
    /// `{`
    AfterOpenCurly {
        bound: u32,
        at: u32,
    },
    /// A term.
    AfterTerm {
        bound: u32,
        part: Part,
        priority: u32,
    },
}

/// Why a token is refused.
#[derive(Clone, Copy, PartialEq, Eq)]
pub enum Refusal {
    /// A token is not expected.
    Unexpected,
    /// A token is expected, and no token after it is.
    NextUnexpected,
    /// A token stands too deep.
    Deep,
}

/// Where a token leads.
#[derive(Drop)]
pub enum Step {
    /// The clause goes on.
    Continue(State),
    /// The token ends the clause, which is this term.
    Finished(Part),
    Refused(Refusal),
}
