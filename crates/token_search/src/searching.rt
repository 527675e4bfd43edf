//! Looking for a short text in a long one.

use crate::gap::is_symbol;

/// The longest text that is looked for, in bytes.
const MOST_SOUGHT: usize = 32;

/// What stands after the first place of a part in a text. A part that is too long is never found.
fn after_part<'a>(text: &'a [u8], part: &[u8]) -> Option<&'a [u8]> {
    if part.len() > MOST_SOUGHT {
        return None;
    }
    for at in 0..text.len() {
        if let Some(rest) = text.get(at..).unwrap_or(&[]).strip_prefix(part) {
            return Some(rest);
        }
    }
    None
}

/// Whether a part stands in a text. A part that is too long is never found.
pub fn has_part(text: &[u8], part: &[u8]) -> bool {
    after_part(text, part).is_some()
}

/// What stands beside a name in a table.
pub fn value_of<T: Copy>(rows: &[(&'static str, T)], name: &[u8]) -> Option<T> {
    for (other, value) in rows {
        if other.as_bytes() == name {
            return Some(*value);
        }
    }
    None
}

/// The one of these texts that a text begins with.
pub fn beginning_among(beginnings: &'static [&'static str], text: &[u8]) -> Option<&'static str> {
    for beginning in beginnings {
        if text.starts_with(beginning.as_bytes()) {
            return Some(beginning);
        }
    }
    None
}

/// A text up to the first byte of this kind, where there is one.
pub fn before_byte(text: &[u8], end: u8) -> Option<&[u8]> {
    let len = text.iter().position(|byte| *byte == end)?;
    text.get(..len)
}

/// A text after the last byte of this kind, or the whole text where there is none.
pub fn after_last(text: &[u8], separator: u8) -> &[u8] {
    let mut parts = text.rsplit(|byte| *byte == separator);
    parts.next().unwrap_or(text)
}

/// Whether one of the runs of symbols in a text is this one.
fn has_run(text: &[u8], symbols: &[u8]) -> bool {
    let mut runs = text.split(|byte| !is_symbol(*byte));
    runs.any(|run| run == symbols)
}

/// Whether an operator of these symbols may be declared by a directive of a text: a part up to a `)` has `op(`, and
/// these symbols after it.
pub fn may_declare(text: &[u8], symbols: &[u8]) -> bool {
    for part in text.split(|byte| *byte == b')') {
        if let Some(rest) = after_part(part, b"op(")
            && has_run(rest, symbols)
        {
            return true;
        }
    }
    false
}
