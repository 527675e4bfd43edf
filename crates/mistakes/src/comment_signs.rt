//! Comments that were meant for something else.

use mistake_sentences::OperatorMistake;
use token_search::{after_last, before_byte, is_word_byte};

/// The last line of a text that is not empty.
fn last_line(text: &[u8]) -> &[u8] {
    after_last(text.trim_ascii_end(), b'\n')
}

/// Whether a text ends in a name, a variable or a number, but for layout.
fn ends_operand(text: &[u8]) -> bool {
    match text.trim_ascii_end().last() {
        Some(byte) => is_word_byte(*byte),
        None => false,
    }
}

/// Whether a text that begins with `%` goes on with an expression: a number or a variable first, no small letter, and a
/// dot or comma at the end.
fn is_rest(text: &[u8]) -> bool {
    match text.get(1..).unwrap_or(&[]).trim_ascii() {
        [first, middle @ .., b'.' | b','] => {
            (first.is_ascii_digit() || first.is_ascii_uppercase())
                && !middle.iter().any(|byte| byte.is_ascii_lowercase())
        }
        _ => false,
    }
}

/// A mistake where `%` was meant for the remainder of a division at the end of a text, as in `Y is X % 2`.
pub fn percent_mistake<'a>(text: &[u8]) -> Option<OperatorMistake<'a>> {
    let line = last_line(text);
    if let Some(before) = before_byte(line, b'%')
        && let Some(after) = line.strip_prefix(before)
        && ends_operand(before)
        && is_rest(after)
    {
        return Some(OperatorMistake::Percent);
    }
    None
}
