//! The line of a text that a message is about, with a caret below the place.

use crate::place::Place;
use std::alloc::AllocError;

/// How many bytes of a line are shown before the place, and after it. A character that begins there is shown whole.
const MOST_BEFORE: usize = 100;

const MOST_AFTER: usize = 100;

/// The most bytes of a character after its first.
const MOST_FOLLOWING: usize = 3;

/// The line of a number, from 1.
pub fn line_of(text: &[u8], number: u64) -> Option<&[u8]> {
    let mut left = number;
    for line in text.split(|byte| *byte == b'\n') {
        if left == 1 {
            return Some(line);
        }
        left = left.saturating_sub(1);
    }
    None
}

/// Whether a byte is one of a character's after its first.
fn is_following(byte: u8) -> bool {
    (0x80..0xc0).contains(&byte)
}

/// The first byte of a control character that has two bytes, and of some letters.
const FIRST_OF_TWO: u8 = 0xc2;

/// A byte as it is shown: a terminal obeys control bytes, so these are replaced.
fn shown(byte: u8) -> u8 {
    if byte == b'\t' || (byte >= b' ' && byte != 0x7f) {
        byte
    } else {
        b'?'
    }
}

/// Adds a byte as it is shown. Of a control character that has two bytes it replaces both.
fn push_byte(message: &mut Vec<u8>, byte: u8) -> Result<(), AllocError> {
    if message.last().copied() == Some(FIRST_OF_TWO) && (0x80..0xa0).contains(&byte) {
        message.pop();
        message.push(b'?')?;
    } else {
        message.push(shown(byte))?;
    }
    Ok(())
}

/// Adds bytes as they are shown.
pub fn push_shown(message: &mut Vec<u8>, bytes: &[u8]) -> Result<(), AllocError> {
    for byte in bytes {
        push_byte(message, *byte)?;
    }
    Ok(())
}

/// Adds the first bytes as they are shown, up to a whole character.
fn push_first(message: &mut Vec<u8>, bytes: &[u8]) -> Result<(), AllocError> {
    let most = bytes.len().min(MOST_AFTER + MOST_FOLLOWING);
    for (count, byte) in bytes[..most].iter().enumerate() {
        if count >= MOST_AFTER && !is_following(*byte) {
            break;
        }
        push_byte(message, *byte)?;
    }
    Ok(())
}

/// Adds what is as wide as these bytes, and blank.
fn push_blank(message: &mut Vec<u8>, bytes: &[u8]) -> Result<(), AllocError> {
    for byte in bytes {
        if *byte == b'\t' {
            message.push(b'\t')?;
        } else if !is_following(*byte) {
            message.push(b' ')?;
        }
    }
    Ok(())
}

/// The last bytes before a place, from a whole character on.
fn last_of(bytes: &[u8]) -> &[u8] {
    let start = bytes.len().saturating_sub(MOST_BEFORE);
    let last = &bytes[start..];
    match last.iter().position(|byte| !is_following(*byte)) {
        Some(first) if start > 0 => last.get(first..).unwrap_or(&[]),
        _ => last,
    }
}

/// Adds a line, and a caret below the byte of a column.
fn push_line(message: &mut Vec<u8>, line: &[u8], column: u64) -> Result<(), AllocError> {
    let at = usize::try_from(column.saturating_sub(1)).unwrap_or(usize::MAX);
    let (before, after) = line.split_at(at.min(line.len()));
    let before = last_of(before);
    message.extend_from_slice(b"    ")?;
    push_shown(message, before)?;
    push_first(message, after)?;
    message.extend_from_slice(b"\n    ")?;
    push_blank(message, before)?;
    message.extend_from_slice(b"^\n")
}

/// Adds the line of a place in a text, if the text has it, and a caret below the place.
pub fn push_excerpt(
    message: &mut Vec<u8>,
    text: &[u8],
    place: Place<'_>,
) -> Result<(), AllocError> {
    match line_of(text, place.line) {
        Some(line) => push_line(message, line, place.column),
        None => Ok(()),
    }
}
