//! Certificates of lists of mappings.

use listed_programs::Listed;
use mode_causes::{Cause, Causes, Limit};
use std::alloc::{AllocError, Global};

/// How a certificate of lists begins.
const BEGINNING: &[u8] = b"ctilex(1).\n";

/// The facts of a certificate of lists that stand in the same form in one of measures, and are looked at.
const SHARED: [&[u8]; 4] = [b"terminates(", b"grounds(", b"none(", b"point("];

/// Whether a text is that of a certificate of lists.
pub(crate) fn is_of_lists(certificate: &[u8]) -> bool {
    certificate.starts_with(BEGINNING)
}

/// The lines of a certificate of lists that stand in the same form in one of measures.
pub(crate) fn shared_lines(alloc: Global, certificate: &[u8]) -> Result<Vec<u8>, AllocError> {
    let mut lines = Vec::new(alloc);
    for line in certificate.split(|byte| *byte == b'\n') {
        if SHARED.iter().any(|name| line.starts_with(name)) {
            lines.extend_from_slice(line)?;
            lines.push(b'\n')?;
        }
    }
    Ok(lines)
}

/// The clause at whose call a list descends by this line.
fn dropping_clause(line: &[u8]) -> Option<u32> {
    let rest = line.strip_prefix(b"drops(".as_slice())?;
    let end = rest.iter().position(|byte| *byte == b',')?;
    let number = std::str::from_utf8(rest.get(..end)?).ok()?;
    number.parse::<u32>().ok()
}

/// The text of the predicate for whose group a list was not found by this line.
fn blown_text(line: &[u8]) -> Option<&[u8]> {
    line.strip_prefix(b"blown(".as_slice())?
        .strip_suffix(b").".as_slice())
}

/// Whether a line has the modes of the predicate of a text.
fn has_modes_of(line: &[u8], pred: &[u8]) -> bool {
    match line.strip_prefix(b"terminates(".as_slice()) {
        Some(rest) => match rest.strip_prefix(pred) {
            Some(after) => after.starts_with(b",["),
            None => false,
        },
        None => false,
    }
}

/// The number of the predicate of a text. The lines with modes stand in the order of the predicates, after the first
/// line.
fn pred_of(certificate: &[u8], pred: &[u8]) -> Option<u32> {
    let lines = certificate.split(|byte| *byte == b'\n');
    let mut number = 0u32;
    for line in lines.skip(1) {
        if has_modes_of(line, pred) {
            return Some(number);
        }
        if !line.starts_with(b"terminates(") {
            return None;
        }
        number = number.saturating_add(1);
    }
    None
}

/// Takes what the lines of a certificate of lists say that stand in no other.
pub(crate) fn take_lists(causes: &mut Causes, listed: &Listed, certificate: &[u8]) {
    causes.is_of_lists = true;
    for line in certificate.split(|byte| *byte == b'\n') {
        if let Some(clause) = dropping_clause(line) {
            causes.note_clause(&listed.table, clause, Cause::Measure);
        } else if let Some(pred) = blown_text(line)
            && causes.looks()
        {
            let found = pred_of(certificate, pred);
            causes.note_limit(&listed.table, found, Limit::Blown);
        }
    }
}
