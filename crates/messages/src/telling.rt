//! The text for standard error.

use crate::advising::shown_advice;
use crate::excerpt::{push_excerpt, push_shown};
use crate::texts::Texts;
use crate::trouble::Trouble;
use std::alloc::{AllocError, Global};

/// Adds a text as it is shown, and the end of its line.
fn push_line(message: &mut Vec<u8>, text: &str) -> Result<(), AllocError> {
    push_shown(message, text.as_bytes())?;
    message.extend_from_slice(b"\n")
}

/// Adds the line that says what to do.
pub fn push_help(message: &mut Vec<u8>, advice: &str) -> Result<(), AllocError> {
    message.extend_from_slice(b"  help: ")?;
    push_line(message, advice)
}

/// Adds what to do about a trouble, as far as the texts show it.
fn push_advice(
    alloc: Global,
    message: &mut Vec<u8>,
    trouble: Trouble<'_>,
    texts: Texts<'_>,
) -> Result<(), AllocError> {
    match shown_advice(alloc, trouble, texts)? {
        Some(advice) => push_help(message, &format!(in alloc; "{advice}")?),
        None => push_help(message, trouble.advice()),
    }
}

/// Adds what is wrong and where, the line of the text, and what to do.
fn push_trouble(
    alloc: Global,
    message: &mut Vec<u8>,
    trouble: Trouble<'_>,
    texts: Texts<'_>,
) -> Result<(), AllocError> {
    push_line(message, &format!(in alloc; "{trouble}")?)?;
    if let Some(place) = trouble.place() {
        push_excerpt(message, texts.told, place)?;
    }
    push_advice(alloc, message, trouble, texts)
}

/// The message: what is wrong and where, the line of the text, and what to do. It is only the help where this was asked
/// for.
pub fn message(
    alloc: Global,
    trouble: Trouble<'_>,
    texts: Texts<'_>,
) -> Result<Vec<u8>, AllocError> {
    let mut message = Vec::new(alloc);
    match trouble {
        Trouble::Asked(asked) => message.extend_from_slice(asked.text().as_bytes())?,
        _ => push_trouble(alloc, &mut message, trouble, texts)?,
    }
    Ok(message)
}
