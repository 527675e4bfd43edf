//! What a cube says of one argument.

ghost use Rattle.std.specs.Prelude.{ℕ, List};
ghost use Rattle.certificate.specs.Text.{cell_text};
ghost use Rattle.certificate.specs.Parse.{read_cell};
ghost use Rattle.certificate.specs.Shortening.{cell_shortens};

use crate::field::Field;
use crate::line_fault::LineFault;
use std::alloc::{AllocError, Global};

/// A place of a cube: the truth value that its rows have there, or either.
#[derive(Clone, Copy, PartialEq, Eq)]
pub enum CertCell {
    /// False, written `0`.
    Zero,
    /// True, written `1`.
    One,
    /// Either, written `x`.
    Any,
}

impl Field for CertCell {
    ghost shown = { cell_text };

    ghost reads = { read_cell };

    ghost fits = { λ cell. Unit {0} };

    ghost shortens = { cell_shortens };

    fn print(&self, out: &mut Vec<u8>) -> Result<(), AllocError> {
        out.push(match self {
            CertCell::Zero => b'0',
            CertCell::One => b'1',
            CertCell::Any => b'x',
        })?;
        Ok(())
    }

    #[tactic(auto, unfolding(crate::specs::Parse::read_cell))]
    fn read(_alloc: Global, text: &[u8]) -> Result<(CertCell, &[u8]), LineFault> {
        match text {
            [b'0', rest @ ..] => Ok((CertCell::Zero, rest)),
            [b'1', rest @ ..] => Ok((CertCell::One, rest)),
            [b'x', rest @ ..] => Ok((CertCell::Any, rest)),
            _ => Err(LineFault::NotAFact),
        }
    }
}
