//! What stops the lexer.

/// Why no token could be read.
#[derive(Clone, Copy, Debug, PartialEq, Eq)]
pub enum LexKind {
    /// A byte begins no token, or a byte in a quoted item or after `0'` is not a character, or a byte in a comment is
    /// not UTF-8. The place is that byte.
    BadByte,
    /// A quoted item meets a newline or the end of the text before its end, or a `/*` comment has no end. The place is
    /// its first byte.
    Unclosed,
    /// A backslash in a quoted item or after `0'` begins no escape. The place is the token's first byte.
    BadEscape,
    /// Decimal digits are followed by a dot and a digit. The place is the first digit.
    Float,
    /// An integer is above 2^127 - 1. The place is its first byte.
    WideNumber,
}

/// A fault and its place, a byte counted from 0.
#[derive(Clone, Copy, Debug, PartialEq, Eq)]
pub struct LexFault {
    pub kind: LexKind,
    pub at: u32,
}

impl LexFault {
    ghost use Rattle.std.specs.Prelude.{◌≡◌, ◌+◌, ◌≤◌};
    ghost use Rattle.prolog_tokens.specs.Places.{moved, fault_at};

    /// The fault of a kind at a place below 2^24 + 1.
    pub(crate) fn new(kind: LexKind, at: usize) -> LexFault
        requires { at ≤ 16777216 }
        ensures { result ≡ fault_at kind at }
    {
        LexFault {
            kind,
            at: at as u32,
        }
    }

    /// The fault that many bytes further on, where places stay below 2^24 + 1.
    pub(crate) fn moved(self, by: usize) -> LexFault
        requires { by + self.at ≤ 16777216 }
        ensures { result ≡ moved by self }
    {
        LexFault {
            kind: self.kind,
            at: by as u32 + self.at,
        }
    }
}
