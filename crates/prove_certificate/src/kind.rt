//! What the columns of an argument measure.

ghost use Rattle.std.specs.Prelude.{◌≡◌, ℕ, List};
ghost use Rattle.prove_certificate.specs.Text.{kind_text};
ghost use Rattle.prove_certificate.specs.Parse.{read_kind};
ghost use Rattle.prove_certificate.specs.KindLaws.{kind_shortens};

use certificate::{Field, LineFault};
use std::alloc::{AllocError, Global};

/// The kind of an argument position: which columns it has in a row.
#[derive(Clone, Copy, PartialEq, Eq)]
pub enum CertKind {
    /// One column, the argument's size.
    Size,
    /// Three columns: the argument's size, and what its value has above and below 0.
    Number,
}

impl CertKind {
    /// The word that a certificate has for it.
    fn word(self) -> &'static [u8]
        ensures { result.now ≡ kind_text self }
    {
        match self {
            CertKind::Size => b"size",
            CertKind::Number => b"number",
        }
    }
}

impl Field for CertKind {
    ghost shown = { kind_text };

    ghost reads = { read_kind };

    ghost fits = { λ kind. Unit {0} };

    ghost shortens = { kind_shortens };

    fn print(&self, out: &mut Vec<u8>) -> Result<(), AllocError> {
        out.extend_from_slice(self.word())
    }

    #[tactic(auto, unfolding(crate::specs::Parse::read_kind))]
    fn read(_alloc: Global, text: &[u8]) -> Result<(CertKind, &[u8]), LineFault> {
        if let Some(rest) = text.strip_prefix(b"size") {
            return Ok((CertKind::Size, rest));
        }
        match text.strip_prefix(b"number") {
            Some(rest) => Ok((CertKind::Number, rest)),
            None => Err(LineFault::NotAFact),
        }
    }
}
