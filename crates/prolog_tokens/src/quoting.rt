//! The spelling of names.

ghost use Rattle.std.specs.Prelude.{◌≡◌, ◌<◌, ◌++◌, ◌∷◌, [], ℕ, List, false, drop, OnOk, OnErr};
ghost use Rattle.std.specs.Char.{digit_char};
ghost use Rattle.std.specs.Str.{IsUtf8};
ghost use Rattle.prolog_tokens.specs.Cursor.{Cursor};
ghost use Rattle.prolog_tokens.specs.ReadBack.{lengthens_name, IsReadBack, IsListReadBack};
ghost use Rattle.prolog_tokens.specs.Decoding.{AppendsPrefix};
ghost use Rattle.prolog_tokens.specs.Spelling.{is_plain_word, is_empty_list, spelled_byte, spelling};

use crate::bytes::{is_small, word_len};
use std::alloc::AllocError;

/// Appends the spelling of a name: plain where it is `[]` or a small letter with letters, digits and underscores, and
/// else in single quotes.
///
/// Between quotes stand `\'`, `\\` and `\n`, and `\xH\` with hexadecimal digits for any other byte below 32 and for
/// 127; each other byte stands for itself. Where memory runs out, the bytes that were there are followed by a prefix of
/// the new ones.
#[tactic(auto, unfolding(crate::specs::Spelling::spelling))]
pub fn quote(text: &[u8], out: &mut Vec<u8>) -> Result<(), AllocError>
    ensures ok { OnOk result (out.new.items ≡ out.old.items ++ spelling text.now) }
    ensures err { OnErr result (AppendsPrefix out.old.items (spelling text.now) out.new.items) }
{
    if is_plain_word(text) || is_empty_list(text) {
        return out.extend_from_slice(text);
    }
    out.push(b'\'')?;
    for byte in text {
        quote_byte(*byte, out)?;
    }
    out.push(b'\'')?;
    Ok(())
}

/// Whether a name is a small letter with letters, digits and underscores.
fn is_plain_word(text: &[u8]) -> bool
    ensures { result ≡ is_plain_word text.now }
{
    if text.is_empty() {
        return false;
    }
    let rest = &text[1..];
    is_small(text[0]) && word_len(rest) == rest.len()
}

/// Whether a name is `[]`.
pub fn is_empty_list(text: &[u8]) -> bool
    ensures { result ≡ is_empty_list text.now }
{
    match text {
        [first, second] => *first == b'[' && *second == b']',
        _ => false,
    }
}

/// Appends a byte as it is spelled between single quotes, or nothing.
#[tactic(auto, unfolding(crate::specs::Spelling::spelled_byte))]
fn quote_byte(byte: u8, out: &mut Vec<u8>) -> Result<(), AllocError>
    ensures ok { OnOk result (out.new.items ≡ out.old.items ++ spelled_byte byte) }
    ensures err { OnErr result (out.new.items ≡ out.old.items) }
{
    match byte {
        b'\'' | b'\\' => out.extend_from_slice(&[b'\\', byte]),
        b'\n' => out.extend_from_slice(b"\\n"),
        0..=15 => out.extend_from_slice(&[b'\\', b'x', digit(byte), b'\\']),
        16..=31 | 127 => out.extend_from_slice(&[
            b'\\',
            b'x',
            digit(byte / 16),
            digit(byte % 16),
            b'\\',
        ]),
        _ => out.extend_from_slice(&[byte]),
    }
}

/// The hexadecimal digit of a value, in small letters.
fn digit(value: u8) -> u8
    requires { value < 16 }
    ensures { result ≡ digit_char value }
{
    if value < 10 {
        b'0' + value
    } else {
        b'a' + (value - 10)
    }
}

/// What `quote` spells is read back, in any text, where no letter, digit, underscore or single quote follows: for a
/// name in UTF-8 the next token is the whole spelling, and it stands for the name. The name `[]` is read back as its
/// two tokens.
pub fn quoted_names_are_read_back()
    ensures name { (c : Cursor) (name after : List ℕ) → IsUtf8 name → is_empty_list name ≡ false
        → lengthens_name after ≡ false
        → drop c.at c.text ≡ spelling name ++ after → IsReadBack c name }
    ensures empty_list { (c : Cursor) (after : List ℕ) → drop c.at c.text ≡ spelling (91 ∷ 93 ∷ []) ++ after
        → IsListReadBack c }
{}
