//! Facts of certificates that stand at a wrong place.

use crate::fact_forms::{FactForm, form_of};
use mistake_sentences::FactMistake;
use token_search::before_byte;

/// The form of the fact of a line.
fn form_of_line(line: &[u8]) -> Option<&'static FactForm> {
    form_of(before_byte(line, b'(')?)
}

/// What the beginning of a certificate shows, whose fact of this line, counted from 1, may not stand there.
fn version_mistake<'a>(
    text: &[u8],
    number: u64,
    form: &'static FactForm,
) -> Option<FactMistake<'a>> {
    if number == 1 {
        Some(FactMistake::NoBeginning)
    } else if form.name == "norm" && text.starts_with(b"cti(1).\n") {
        Some(FactMistake::NormVersion)
    } else if number == 2 && text.starts_with(b"cti(2).\n") {
        Some(FactMistake::NoNorm)
    } else {
        None
    }
}

/// A mistake where a fact of this form may not stand after the line before.
fn order_mistake<'a>(before: &[u8], form: &'static FactForm) -> Option<FactMistake<'a>> {
    match form_of_line(before) {
        Some(earlier) if form.rank < earlier.rank => {
            Some(FactMistake::Order(form.name, earlier.name))
        }
        _ => None,
    }
}

/// What a certificate shows, whose fact of line `number`, from 1, may not follow that of the line before.
pub fn standing_mistake<'a>(
    text: &[u8],
    number: u64,
    before: Option<&[u8]>,
    line: &[u8],
) -> Option<FactMistake<'a>> {
    let form = form_of_line(line)?;
    match version_mistake(text, number, form) {
        Some(mistake) => Some(mistake),
        None => order_mistake(before?, form),
    }
}
