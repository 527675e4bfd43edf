//! The norm of a certificate.

ghost use Rattle.std.specs.Prelude.{◌≡◌, ℕ, List};
ghost use Rattle.certificate.specs.Text.{norm_text};
ghost use Rattle.certificate.specs.Parse.{read_norm};
ghost use Rattle.certificate.specs.Shortening.{norm_shortens};

use crate::field::Field;
use crate::line_fault::LineFault;
use std::alloc::{AllocError, Global};

/// The norm that the rows and modes of a certificate speak of: what the size of a term is, and which terms are rigid.
#[derive(Clone, Copy, PartialEq, Eq)]
pub enum CertNorm {
    /// Term size: the number of function symbols with arguments.
    Term,
    /// List size: the number of cells of a list.
    List,
}

impl CertNorm {
    /// The word that a certificate has for it.
    fn word(self) -> &'static [u8]
        ensures { result.now ≡ norm_text self }
    {
        match self {
            CertNorm::Term => b"term",
            CertNorm::List => b"list",
        }
    }
}

impl Field for CertNorm {
    ghost shown = { norm_text };

    ghost reads = { read_norm };

    ghost fits = { λ norm. Unit {0} };

    ghost shortens = { norm_shortens };

    fn print(&self, out: &mut Vec<u8>) -> Result<(), AllocError> {
        out.extend_from_slice(self.word())
    }

    #[tactic(auto, unfolding(crate::specs::Parse::read_norm))]
    fn read(_alloc: Global, text: &[u8]) -> Result<(CertNorm, &[u8]), LineFault> {
        if let Some(rest) = text.strip_prefix(b"term") {
            return Ok((CertNorm::Term, rest));
        }
        match text.strip_prefix(b"list") {
            Some(rest) => Ok((CertNorm::List, rest)),
            None => Err(LineFault::NotAFact),
        }
    }
}
