//! Bytes that begin no token.

use mistake_sentences::ByteMistake;

/// Signs of mathematics, and what is written for each.
const SIGNS: [(&str, &str); 11] = [
    ("≤", "=<"),
    ("≥", ">="),
    ("≠", "=\\="),
    ("×", "*"),
    ("·", "*"),
    ("−", "-"),
    ("←", ":-"),
    ("⇐", ":-"),
    ("∧", ","),
    ("∨", ";"),
    ("∅", "[]"),
];

/// How many bytes are looked at for one that no text has.
const MOST_LOOKED: usize = 1_000;

/// Whether bytes are none of a text, as those of a program that a machine runs.
fn is_binary(bytes: &[u8]) -> bool {
    bytes.get(..MOST_LOOKED).unwrap_or(bytes).contains(&0)
}

/// The character that bytes begin with, if they begin with one of UTF-8.
fn first_char(bytes: &[u8]) -> Option<char> {
    for len in 1..5 {
        if let Some(first) = bytes.get(..len)
            && let Ok(text) = std::str::from_utf8(first)
        {
            return text.chars().next();
        }
    }
    None
}

/// What a character shows that begins no token.
fn char_mistake(first: char) -> Option<ByteMistake> {
    match first {
        '\u{feff}' => Some(ByteMistake::ByteOrderMark),
        '`' => Some(ByteMistake::BackQuote),
        '\0'..='\u{1f}' | '\u{7f}' => Some(ByteMistake::Control),
        '\u{a0}' | '\u{2000}'..='\u{203f}' => Some(ByteMistake::Typographic),
        '¬' => Some(ByteMistake::Negation),
        // The arrows, signs of mathematics and shapes of Unicode.
        '\u{2180}'..='\u{2bff}' => Some(ByteMistake::Symbol),
        _ => None,
    }
}

/// What a sign of mathematics shows, where the bytes begin with one.
fn sign_mistake(after: &[u8]) -> Option<ByteMistake> {
    for (sign, plain) in &SIGNS {
        if after.starts_with(sign.as_bytes()) {
            return Some(ByteMistake::Sign(sign, plain));
        }
    }
    None
}

/// Whether bytes begin with the byte order mark of UTF-8 or UTF-16.
fn has_mark(bytes: &[u8]) -> bool {
    bytes.starts_with(b"\xef\xbb\xbf")
        || bytes.starts_with(b"\xfe\xff")
        || bytes.starts_with(b"\xff\xfe")
}

/// What the bytes from a place on show, where they begin no token.
pub fn byte_mistake(after: &[u8]) -> Option<ByteMistake> {
    if !has_mark(after) && is_binary(after) {
        return Some(ByteMistake::Binary);
    }
    if let Some(mistake) = sign_mistake(after) {
        return Some(mistake);
    }
    match first_char(after) {
        Some(first) => char_mistake(first),
        None if after.is_empty() => None,
        None => Some(ByteMistake::NotText),
    }
}
