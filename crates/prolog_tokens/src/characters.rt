//! Characters in UTF-8.

ghost use Rattle.std.specs.Prelude.{◌≡◌, ◌≤◌, length, IfSome};
ghost use Rattle.std.specs.Char.{len_utf8};
ghost use Rattle.std.specs.Str.{continuation_len};
ghost use Rattle.prolog_tokens.specs.Characters.{character_at, is_quotable};

use std::str;

/// How many bytes follow the first byte of a character.
fn continuation_len(first: u8) -> usize
    ensures { result ≡ continuation_len first }
{
    match first {
        0..=0x7f => 0,
        0x80..=0xdf => 1,
        0xe0..=0xef => 2,
        _ => 3,
    }
}

/// The character whose UTF-8 the bytes begin with, if there is one.
#[tactic(auto, unfolding(crate::specs::Characters::character_at))]
pub fn character(bytes: &[u8]) -> Option<char>
    ensures value { result ≡ character_at bytes.now }
    ensures fits { IfSome result (λ c. len_utf8 c ≤ length bytes.now) }
{
    if bytes.is_empty() {
        return None;
    }
    let len = 1 + continuation_len(bytes[0]);
    match str::from_utf8(&bytes[..len.min(bytes.len())]) {
        Ok(text) => text.chars().next(),
        Err(_) => None,
    }
}

/// A character that may stand in quotes: tab, printing ASCII, and all past ASCII.
pub fn is_quotable(character: char) -> bool
    ensures { result ≡ is_quotable character }
{
    let code = character as u32;
    code == 9 || (32 <= code && code <= 126) || 128 <= code
}
