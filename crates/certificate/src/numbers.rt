//! Numbers of a fact.

ghost use Rattle.std.specs.Prelude.{◌≡◌, ◌≤◌, decimal, IfOk};
ghost use Rattle.std.specs.Fmt.{signed_decimal};
ghost use Rattle.certificate.specs.Range.{IsPlace, IsIndex, IsEntry, most_127};
ghost use Rattle.certificate.specs.Parse.{Agrees, AgreesText, after, read_natural, read_place, read_index, read_integer};
ghost use Rattle.certificate.specs.Shortening.{place_shortens, index_shortens, integer_shortens};

use crate::field::Field;
use crate::line_fault::LineFault;
use itoa::Buffer;
use std::alloc::{AllocError, Global};

/// What follows these bytes at the front of a text.
pub fn after<'a>(text: &'a [u8], literal: &[u8]) -> Result<&'a [u8], LineFault>
    ensures { AgreesText result (after literal.now text.now) }
{
    text.strip_prefix(literal).ok_or(LineFault::NotAFact)
}

/// The number at the front of a text, if it is not too great, and the text after it.
pub fn natural(text: &[u8], most: u128) -> Result<(u128, &[u8]), LineFault>
    requires { most ≤ most_127 }
    ensures value { Agrees result (read_natural most text.now) }
    ensures fits { IfOk result (λ p. p.0 ≤ most) }
{
    let mut value: u128 = 0;
    let mut len = 0;
    for byte in text {
        let Some(digit) = char::from(*byte).to_digit(10) else {
            break;
        };
        if value > most / 10 {
            return Err(LineFault::NotAFact);
        }
        value = value * 10 + u128::from(digit);
        if value > most {
            return Err(LineFault::NotAFact);
        }
        len += 1;
    }
    if len == 0 {
        return Err(LineFault::NotAFact);
    }
    Ok((value, &text[len..]))
}

/// A number of 32 bits from 1 on.
impl Field for u32 {
    ghost shown = { decimal };

    ghost reads = { read_place };

    ghost fits = { IsPlace };

    ghost shortens = { place_shortens };

    fn print(&self, out: &mut Vec<u8>) -> Result<(), AllocError> {
        out.extend_from_slice(Buffer::new().format(*self).as_bytes())
    }

    #[tactic(auto, unfolding(crate::specs::Parse::read_place))]
    fn read(_alloc: Global, text: &[u8]) -> Result<(u32, &[u8]), LineFault> {
        let (number, text) = natural(text, u128::from(u32::MAX))?;
        match u32::try_from(number) {
            Ok(place) if place > 0 => Ok((place, text)),
            _ => Err(LineFault::NotAFact),
        }
    }
}

/// A number of 64 bits from 1 on.
impl Field for u64 {
    ghost shown = { decimal };

    ghost reads = { read_index };

    ghost fits = { IsIndex };

    ghost shortens = { index_shortens };

    fn print(&self, out: &mut Vec<u8>) -> Result<(), AllocError> {
        out.extend_from_slice(Buffer::new().format(*self).as_bytes())
    }

    #[tactic(auto, unfolding(crate::specs::Parse::read_index))]
    fn read(_alloc: Global, text: &[u8]) -> Result<(u64, &[u8]), LineFault> {
        let (number, text) = natural(text, u128::from(u64::MAX))?;
        match u64::try_from(number) {
            Ok(index) if index > 0 => Ok((index, text)),
            _ => Err(LineFault::NotAFact),
        }
    }
}

/// The greatest number of 127 bits.
const MOST: u128 = (1 << 127) - 1;

/// A number of 127 bits and a sign.
impl Field for i128 {
    ghost shown = { signed_decimal };

    ghost reads = { read_integer };

    ghost fits = { IsEntry };

    ghost shortens = { integer_shortens };

    fn print(&self, out: &mut Vec<u8>) -> Result<(), AllocError> {
        out.extend_from_slice(Buffer::new().format(*self).as_bytes())
    }

    #[tactic(auto, unfolding(crate::specs::Parse::read_integer))]
    fn read(_alloc: Global, text: &[u8]) -> Result<(i128, &[u8]), LineFault> {
        match text.strip_prefix(b"-") {
            Some(digits) => {
                let (number, text) = natural(digits, MOST)?;
                Ok((-(number as i128), text))
            }
            None => {
                let (number, text) = natural(text, MOST)?;
                Ok((number as i128, text))
            }
        }
    }
}
