//! Why a text is not read.

use prolog_tokens::LexKind;
use std::alloc::AllocError;
use thiserror::Error;

/// What is wrong with a text.
#[derive(Clone, Copy, Debug, PartialEq, Eq)]
pub enum ReadKind {
    /// A token cannot be read.
    Lex(LexKind),
    /// With this token the tokens of the clause can no longer become one, or the text ends within a clause.
    Unexpected,
    /// An operand begins under more than 1,000 openers, or an infix operator stands after a term of a depth of 1,000 or
    /// more.
    Deep,
    /// The text has more than 1,048,576 bytes.
    Long,
    /// A clause `:- op(P,T,N).` has arguments that set no operators. The place is its first token.
    BadOp,
}

/// Why a text is not read. A place counts bytes from 0.
#[derive(Clone, Copy, Debug, PartialEq, Eq, Error)]
pub enum ReadFault {
    /// The text is refused, at this place.
    #[error("the text cannot be read: {kind:?} at byte {at}")]
    Fault { kind: ReadKind, at: u32 },
    /// Memory ran out.
    #[error("out of memory")]
    Memory,
}

impl From<AllocError> for ReadFault {
    ghost use Rattle.std.specs.Prelude.{◌≡◌};
    ghost use Rattle.prolog_reader.specs.declared.fault.ReadFault.TheVariants.{Memory};

    ghost from_gives = { λ _ e. e ≡ Memory };

    fn from(_error: AllocError) -> ReadFault {
        ReadFault::Memory
    }
}
