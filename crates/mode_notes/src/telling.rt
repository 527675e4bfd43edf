//! What is said of modes.

use crate::expecting::expected_note;
use crate::lists::is_of_lists;
use crate::reading::notes_of;
use messages::status::{DONE, NO};
use messages::{Ending, ToldNo};
use std::alloc::{AllocError, Global};

/// The reasons of a certificate that is not valid where another fact was expected.
const MISSING: u64 = 2;

const EXTRA: u64 = 3;

/// How a certificate of list size begins.
const LIST_SIZE: &[u8] = b"cti(2).\nnorm(list).\n";

/// What is said of modes by list size.
const LIST_NOTE: &[u8] =
    b"cti: note: these modes are by list size: they speak of lists whose length is known\n";

/// How a line about the modes of a predicate begins, and how it ends where there are none.
const MODES: &[u8] = b"terminates(";

const NO_MODES: &[u8] = b",[]).";

/// Whether a certificate says of some predicate that it has no mode. The lines about modes stand together, near its
/// beginning.
fn lacks_modes(certificate: &[u8]) -> bool {
    certificate
        .split(|byte| *byte == b'\n')
        .skip_while(|line| !line.starts_with(MODES))
        .take_while(|line| line.starts_with(MODES))
        .any(|line| line.ends_with(NO_MODES))
}

/// What is said of the norm of a certificate, where its modes are not of ground arguments.
pub fn norm_note(certificate: &[u8]) -> &'static [u8] {
    if certificate.starts_with(LIST_SIZE) {
        LIST_NOTE
    } else {
        b""
    }
}

/// The notes about a named program by the text of its certificate, which are none where one is not read.
pub fn program_notes(
    alloc: Global,
    name: &str,
    text: &[u8],
    certificate: &[u8],
) -> Result<Vec<u8>, AllocError> {
    notes_of(alloc, name, text, certificate)
}

/// The note about a named certificate of a program, which was answered so.
pub fn check_note(
    alloc: Global,
    name: &str,
    texts: (&[u8], &[u8]),
    output: &str,
) -> Result<Vec<u8>, AllocError> {
    match ToldNo::read(output) {
        Some(told) if told.reason == MISSING || told.reason == EXTRA => {
            expected_note(alloc, name, texts, told.line)
        }
        _ => Ok(Vec::new(alloc)),
    }
}

/// The note about the certificate of a call of `check` that is not valid.
fn no_note(alloc: Global, ending: Ending<'_>) -> Result<Vec<u8>, AllocError> {
    let output = std::str::from_utf8(ending.output).unwrap_or("");
    let texts = (ending.program, ending.certificate);
    check_note(alloc, ending.told_words().second(), texts, output)
}

/// The notes about the program of a call that wrote this certificate.
fn infer_notes(
    alloc: Global,
    ending: Ending<'_>,
    certificate: &[u8],
) -> Result<Vec<u8>, AllocError> {
    let mut message = Vec::from_slice(alloc, norm_note(certificate))?;
    if lacks_modes(certificate) {
        let name = ending.told_words().file();
        let notes = program_notes(alloc, name, ending.program, certificate)?;
        message.extend_from_slice(&notes)?;
    }
    Ok(message)
}

/// The notes about a call that answered, and wrote this text if it wrote a certificate.
pub fn call_notes(
    alloc: Global,
    ending: Ending<'_>,
    written: &[u8],
) -> Result<Vec<u8>, AllocError> {
    let words = ending.told_words();
    if ending.status == NO && words.has_certificate() {
        return no_note(alloc, ending);
    }
    if ending.status != DONE {
        return Ok(Vec::new(alloc));
    }
    if words.infers() || is_of_lists(written) {
        infer_notes(alloc, ending, written)
    } else if words.has_certificate() {
        Vec::from_slice(alloc, norm_note(ending.certificate))
    } else {
        Ok(Vec::new(alloc))
    }
}
