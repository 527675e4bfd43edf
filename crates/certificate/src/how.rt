//! How a step of the chain of size rows made its rows.

ghost use Rattle.std.specs.Prelude.{◌≡◌, ℕ, List};
ghost use Rattle.certificate.specs.Text.{how_text};
ghost use Rattle.certificate.specs.Parse.{read_how};
ghost use Rattle.certificate.specs.Shortening.{how_shortens};

use crate::field::Field;
use crate::line_fault::LineFault;
use std::alloc::{AllocError, Global};

/// How the rows of a predicate came from its rows before a step and the image at that step.
#[derive(Clone, Copy, PartialEq, Eq)]
pub enum CertHow {
    /// The image was empty and nothing changed.
    None,
    /// There were no points before, and the rows are the image.
    First,
    /// The rows hold on both.
    Join,
    /// The rows are those that still hold (widening).
    Keep,
    /// Every row still holds.
    Same,
}

impl CertHow {
    /// The word that a certificate has for it.
    fn word(self) -> &'static [u8]
        ensures { result.now ≡ how_text self }
    {
        match self {
            CertHow::None => b"none",
            CertHow::First => b"first",
            CertHow::Join => b"join",
            CertHow::Keep => b"keep",
            CertHow::Same => b"same",
        }
    }
}

impl Field for CertHow {
    ghost shown = { how_text };

    ghost reads = { read_how };

    ghost fits = { λ how. Unit {0} };

    ghost shortens = { how_shortens };

    fn print(&self, out: &mut Vec<u8>) -> Result<(), AllocError> {
        out.extend_from_slice(self.word())
    }

    #[tactic(auto, unfolding(crate::specs::Parse::read_how))]
    fn read(_alloc: Global, text: &[u8]) -> Result<(CertHow, &[u8]), LineFault> {
        if let Some(rest) = text.strip_prefix(b"none") {
            return Ok((CertHow::None, rest));
        }
        if let Some(rest) = text.strip_prefix(b"first") {
            return Ok((CertHow::First, rest));
        }
        if let Some(rest) = text.strip_prefix(b"join") {
            return Ok((CertHow::Join, rest));
        }
        if let Some(rest) = text.strip_prefix(b"keep") {
            return Ok((CertHow::Keep, rest));
        }
        match text.strip_prefix(b"same") {
            Some(rest) => Ok((CertHow::Same, rest)),
            None => Err(LineFault::NotAFact),
        }
    }
}
