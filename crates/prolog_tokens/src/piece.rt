//! The pieces of quoted items.

ghost use Rattle.std.specs.Prelude.{◌≡◌, ◌+◌, ◌≤◌, ◌<◌, length};
ghost use Rattle.prolog_tokens.specs.Characters.{character_at};
ghost use Rattle.prolog_tokens.specs.Pieces.{escape_of, number_escape, escape_at, closing_at, plain_character, piece_at, HasAtMost};

use crate::bytes::begins_with;
use crate::characters::{character, is_quotable};
use crate::fault::LexKind;
use crate::numbers::{digits_len, scalar};

/// What stands at one place of a quoted item.
#[derive(Clone, Copy, PartialEq, Eq)]
pub enum Piece {
    /// A character, and how many bytes spell it.
    Character(char, usize),
    /// A backslash before a newline: two bytes that stand for nothing.
    Dropped,
    /// The quote that ends the item.
    Closing,
    /// A byte that is not a character, the end of the line or of the text, or a backslash that begins no escape.
    Fault(LexKind),
}

/// The piece at the front of the bytes, in an item with this quote.
#[tactic(auto, unfolding(crate::specs::Pieces::piece_at))]
pub fn piece_at(bytes: &[u8], quote: u8) -> Piece
    ensures value { result ≡ piece_at quote bytes.now }
    ensures fits { HasAtMost (length bytes.now) result }
{
    if bytes.is_empty() {
        return Piece::Fault(LexKind::Unclosed);
    }
    let rest = &bytes[1..];
    match bytes[0] {
        first if first == quote => closing(rest, quote),
        b'\n' => Piece::Fault(LexKind::Unclosed),
        b'\\' => escape(rest),
        _ => plain_character(bytes),
    }
}

/// The piece that begins with the item's quote, given the bytes after it.
fn closing(after: &[u8], quote: u8) -> Piece
    ensures value { result ≡ closing_at quote after.now }
{
    if begins_with(after, quote) {
        Piece::Character(char::from(quote), 2)
    } else {
        Piece::Closing
    }
}

/// The piece that is a character for itself.
fn plain_character(bytes: &[u8]) -> Piece
    ensures value { result ≡ plain_character (character_at bytes.now) }
    ensures fits { HasAtMost (length bytes.now) result }
{
    match character(bytes) {
        Some(found) if is_quotable(found) => Piece::Character(found, found.len_utf8()),
        _ => Piece::Fault(LexKind::BadByte),
    }
}

/// The piece that begins with a backslash, given the bytes after it.
#[tactic(auto, unfolding(crate::specs::Pieces::escape_at))]
fn escape(after: &[u8]) -> Piece
    ensures value { result ≡ escape_at after.now }
    ensures fits { HasAtMost (1 + length after.now) result }
{
    if after.is_empty() {
        return Piece::Fault(LexKind::BadEscape);
    }
    match after[0] {
        b'\n' => Piece::Dropped,
        b'x' => number_escape(&after[1..], 16, 2),
        b'0'..=b'7' => number_escape(after, 8, 1),
        first => match escaped(first) {
            Some(found) => Piece::Character(found, 2),
            None => Piece::Fault(LexKind::BadEscape),
        },
    }
}

/// The escape by a number in a base, whose digits stand after the given number of bytes.
#[tactic(auto, unfolding(crate::specs::Pieces::number_escape))]
fn number_escape(bytes: &[u8], base: u32, before: usize) -> Piece
    requires base { 0 < base }
    requires before { before ≤ 2 }
    ensures value { result ≡ number_escape base before bytes.now }
    ensures fits { HasAtMost (before + length bytes.now) result }
{
    let len = digits_len(bytes, base);
    if len == 0 || !begins_with(&bytes[len..], b'\\') {
        return Piece::Fault(LexKind::BadEscape);
    }
    match scalar(&bytes[..len], base) {
        Some(found) => Piece::Character(found, before + len + 1),
        None => Piece::Fault(LexKind::BadEscape),
    }
}

/// The character that a letter or mark stands for after a backslash.
#[tactic(auto, unfolding(crate::specs::Pieces::escape_of))]
fn escaped(byte: u8) -> Option<char>
    ensures { result ≡ escape_of byte }
{
    match byte {
        b'a' => Some('\x07'),
        b'b' => Some('\x08'),
        b'f' => Some('\x0c'),
        b'n' => Some('\n'),
        b'r' => Some('\r'),
        b't' => Some('\t'),
        b'v' => Some('\x0b'),
        b'\\' | b'\'' | b'"' | b'`' => Some(char::from(byte)),
        _ => None,
    }
}
