//! Integers.

ghost use Rattle.std.specs.Prelude.{◌≡◌, ◌+◌, ◌≤◌, ◌<◌, ◌^◌, length, IfOk, IfErr};
ghost use Rattle.prolog_tokens.specs.Bytes.{begins_with};
ghost use Rattle.prolog_tokens.specs.Numbers.{digits_len, number_of};
ghost use Rattle.prolog_tokens.specs.Pieces.{piece_at};
ghost use Rattle.prolog_tokens.specs.Tokens.{integer, is_fraction, decimal_at, based_at, code_of, integer_at};

use crate::bytes::begins_with;
use crate::fault::{LexFault, LexKind};
use crate::numbers::{digits_len, number};
use crate::piece::{Piece, piece_at};
use crate::token::TokenKind;

/// The integer at the front of the bytes, which begin with a decimal digit.
#[tactic(auto, unfolding(crate::specs::Tokens::integer_at))]
pub fn integer(bytes: &[u8]) -> Result<(TokenKind, usize), LexFault>
    requires some { 0 < digits_len 10 bytes.now }
    requires short { length bytes.now ≤ 16777216 }
    ensures value { result ≡ integer_at bytes.now }
    ensures fits { IfOk result (λ t. (0 < t.1) × (t.1 ≤ length bytes.now)) }
    ensures place { IfErr result (λ fault. fault.at ≤ length bytes.now) }
{
    if bytes.len() < 2 || bytes[0] != b'0' {
        return decimal(bytes);
    }
    let after = &bytes[2..];
    match bytes[1] {
        b'x' => based(after, 16),
        b'o' => based(after, 8),
        b'b' => based(after, 2),
        b'\'' => code(after),
        _ => decimal(bytes),
    }
}

/// An integer of decimal digits.
#[tactic(auto, unfolding(crate::specs::Tokens::decimal_at))]
fn decimal(bytes: &[u8]) -> Result<(TokenKind, usize), LexFault>
    requires some { 0 < digits_len 10 bytes.now }
    ensures value { result ≡ decimal_at bytes.now }
    ensures fits { IfOk result (λ t. (0 < t.1) × (t.1 ≤ length bytes.now)) }
    ensures place { IfErr result (λ fault. fault.at ≡ 0) }
{
    let len = digits_len(bytes, 10);
    match number(&bytes[..len], 10) {
        Some(_) if is_fraction(&bytes[len..]) => Err(LexFault::new(LexKind::Float, 0)),
        Some(number) => Ok((TokenKind::Int(number as i128), len)),
        None => Err(LexFault::new(LexKind::WideNumber, 0)),
    }
}

/// Whether a dot and a digit stand at the front.
fn is_fraction(bytes: &[u8]) -> bool
    ensures { result ≡ is_fraction bytes.now }
{
    begins_with(bytes, b'.') && digits_len(&bytes[1..], 10) > 0
}

/// An integer of a base, after `0` and the letter of the base.
#[tactic(auto, unfolding(crate::specs::Tokens::based_at))]
fn based(bytes: &[u8], base: u32) -> Result<(TokenKind, usize), LexFault>
    requires base { 0 < base }
    requires short { length bytes.now ≤ 16777216 }
    ensures value { result ≡ based_at base bytes.now }
    ensures fits { IfOk result (λ t. (0 < t.1) × (t.1 ≤ 2 + length bytes.now)) }
    ensures place { IfErr result (λ fault. fault.at ≡ 0) }
{
    let len = digits_len(bytes, base);
    if len == 0 {
        return Ok((TokenKind::Int(0), 1));
    }
    match number(&bytes[..len], base) {
        Some(number) => Ok((TokenKind::Int(number as i128), 2 + len)),
        None => Err(LexFault::new(LexKind::WideNumber, 0)),
    }
}

/// The code of a character, after `0'`.
fn code(bytes: &[u8]) -> Result<(TokenKind, usize), LexFault>
    requires { length bytes.now ≤ 16777216 }
    ensures value { result ≡ code_of (piece_at 39 bytes.now) }
    ensures fits { IfOk result (λ t. (0 < t.1) × (t.1 ≤ 2 + length bytes.now)) }
    ensures place { IfErr result (λ fault. fault.at ≤ 2) }
{
    match piece_at(bytes, b'\'') {
        Piece::Character(found, len) => Ok((TokenKind::Int(found as i128), 2 + len)),
        Piece::Dropped => Err(LexFault::new(LexKind::BadEscape, 0)),
        Piece::Closing | Piece::Fault(LexKind::Unclosed) => Ok((TokenKind::Int(0), 1)),
        Piece::Fault(LexKind::BadByte) => Err(LexFault::new(LexKind::BadByte, 2)),
        Piece::Fault(kind) => Err(LexFault::new(kind, 0)),
    }
}
