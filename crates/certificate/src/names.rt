//! Names of predicates.

ghost use Rattle.std.specs.Prelude.{◌≡◌, ◌<◌, ◌≤◌, length, codes, IfOk};
ghost use Rattle.std.specs.Str.{IsUtf8};
ghost use Rattle.certificate.specs.Text.{indicator};
ghost use Rattle.certificate.specs.Range.{IsPred};
ghost use Rattle.certificate.specs.Parse.{Agrees, AgreesMore, read_byte, read_escape, read_code, read_hexadecimal, read_plain, read_quoted, after, read_name, read_pred, read_until, word_len};
ghost use Rattle.certificate.specs.Shortening.{pred_shortens};

use crate::field::Field;
use crate::line_fault::LineFault;
use crate::numbers::{after, natural};
use crate::pred_text::PredText;
use itoa::Buffer;
use prolog_tokens::quote;
use sequences::Sequence;
use std::alloc::{AllocError, Global};

/// The most arguments of a predicate.
const MOST_ARGUMENTS: u128 = 12;

impl Field for PredText {
    ghost shown = { indicator };

    ghost reads = { read_pred };

    ghost fits = { IsPred };

    ghost shortens = { pred_shortens };

    fn print(&self, out: &mut Vec<u8>) -> Result<(), AllocError> {
        quote(self.name.as_slice(), out)?;
        out.push(b'/')?;
        out.extend_from_slice(Buffer::new().format(self.arity).as_bytes())
    }

    #[tactic(auto, unfolding(crate::specs::Parse::read_pred))]
    fn read(alloc: Global, text: &[u8]) -> Result<(PredText, &[u8]), LineFault> {
        let (name, text) = name(alloc, text)?;
        let (arity, text) = natural(after(text, b"/")?, MOST_ARGUMENTS)?;
        Ok((
            PredText {
                name,
                arity: arity as u32,
            },
            text,
        ))
    }
}

/// The name at the front of a text, if it is valid UTF-8.
#[tactic(auto, unfolding(crate::specs::Parse::read_name))]
fn name(alloc: Global, text: &[u8]) -> Result<(Sequence<u8>, &[u8]), LineFault>
    ensures value { Agrees result (read_name text.now) }
    ensures fits { IfOk result (λ p. IsUtf8 p.0) }
{
    let (name, text) = unchecked_name(alloc, text)?;
    match str::from_utf8(name.as_slice()) {
        Ok(_) => Ok((name, text)),
        Err(_) => Err(LineFault::NotAFact),
    }
}

/// The name at the front of a text, whatever its bytes are.
fn unchecked_name(alloc: Global, text: &[u8]) -> Result<(Sequence<u8>, &[u8]), LineFault>
    ensures { Agrees result (read_quoted (after (codes "'") text.now) text.now) }
{
    match text.strip_prefix(b"'") {
        Some(quoted) => quoted_name(alloc, quoted),
        None => plain_name(alloc, text),
    }
}

/// How many bytes stand before the first slash, or in all.
fn plain_len(text: &[u8]) -> usize
    ensures value { result ≡ word_len text.now }
    ensures bound { result ≤ length text.now }
{
    text.iter().take_while(|byte| **byte != b'/').count()
}

/// A name without quotes, which ends before the slash.
#[tactic(auto, using(crate::proofs::NumberLemmas::to_end))]
fn plain_name(alloc: Global, text: &[u8]) -> Result<(Sequence<u8>, &[u8]), LineFault>
    ensures { Agrees result (read_plain text.now) }
{
    let len = plain_len(text);
    let name = Vec::from_slice(alloc, &text[..len])?;
    Ok((Sequence::from_vec(name), &text[len..]))
}

/// A name up to its closing quote.
fn quoted_name(alloc: Global, text: &[u8]) -> Result<(Sequence<u8>, &[u8]), LineFault>
    ensures { Agrees result (read_until 39 read_byte text.now) }
{
    let mut name = Sequence::new(alloc);
    let mut rest = text;
    loop {
        let Some((first, after_first)) = rest.split_first() else {
            return Err(LineFault::NotAFact);
        };
        if *first == b'\'' {
            return Ok((name, after_first));
        }
        let (byte, after_byte) = byte(rest)?;
        name.push(byte)?;
        rest = after_byte;
    }
}

/// The byte that a text between quotes begins with.
#[tactic(auto, unfolding(crate::specs::Parse::read_byte))]
fn byte(text: &[u8]) -> Result<(u8, &[u8]), LineFault>
    ensures { Agrees result (read_byte text.now) }
{
    let (first, rest) = text.split_first().ok_or(LineFault::NotAFact)?;
    if *first == b'\\' {
        escape(rest)
    } else {
        Ok((*first, rest))
    }
}

/// The byte that a text after a backslash begins with.
fn escape(text: &[u8]) -> Result<(u8, &[u8]), LineFault>
    ensures { Agrees result (read_escape text.now) }
{
    let (first, rest) = text.split_first().ok_or(LineFault::NotAFact)?;
    match *first {
        b'n' => Ok((b'\n', rest)),
        b'x' => code(rest),
        byte => Ok((byte, rest)),
    }
}

/// The byte whose one or two hexadecimal digits and backslash a text begins with.
fn code(text: &[u8]) -> Result<(u8, &[u8]), LineFault>
    ensures { Agrees result (read_code text.now) }
{
    let (high, rest) = hexadecimal(text)?;
    if let Some(rest) = rest.strip_prefix(b"\\") {
        return Ok((high, rest));
    }
    let (low, rest) = hexadecimal(rest)?;
    Ok((high * 16 + low, after(rest, b"\\")?))
}

/// The value of the hexadecimal digit that a text begins with.
fn hexadecimal(text: &[u8]) -> Result<(u8, &[u8]), LineFault>
    ensures value { Agrees result (read_hexadecimal text.now) }
    ensures small { IfOk result (λ p. p.0 < 16) }
{
    let (first, rest) = text.split_first().ok_or(LineFault::NotAFact)?;
    match char::from(*first).to_digit(16) {
        Some(digit) => Ok((digit as u8, rest)),
        None => Err(LineFault::NotAFact),
    }
}
