//! A program and its certificate, read again.

use crate::lists::{is_of_lists, shared_lines, take_lists};
use crate::noting::notes;
use crate::showing::Source;
use certificate::Certificate;
use clause_normal::normal;
use cti_terms::Names;
use listed_programs::{Listed, Places, ProgramTable};
use mode_causes::{Causes, View};
use prolog_reader::{MOST_BYTES, read_text};
use std::alloc::{AllocError, Global};

/// The program of a text, if it is one.
pub(crate) fn listed_program(alloc: Global, text: &[u8]) -> Result<Option<Listed>, AllocError> {
    // A text that is read is this short, but no contract says so, and `normal` asks for room for more names.
    if text.len() > MOST_BYTES {
        return Ok(None);
    }
    let mut names = Names::new(alloc);
    let Ok(read) = read_text(alloc, text, &mut names) else {
        return Ok(None);
    };
    let Ok(program) = normal(alloc, &read, &mut names) else {
        return Ok(None);
    };
    let table = ProgramTable::of(alloc, &program)?;
    let places = Places::of(alloc, &names, read.clauses.as_slice())?;
    Ok(Some(Listed {
        program,
        table,
        places,
        names,
    }))
}

/// The facts of a certificate that notes are made of, or none where it is not read.
fn facts_of(alloc: Global, certificate: &[u8]) -> Result<Option<Certificate>, AllocError> {
    let read = if is_of_lists(certificate) {
        let lines = shared_lines(alloc, certificate)?;
        Certificate::read(alloc, &lines)
    } else {
        Certificate::read(alloc, certificate)
    };
    Ok(read.ok())
}

/// The notes about a named program by the text of its certificate, which are none where one is not read.
pub(crate) fn notes_of(
    alloc: Global,
    name: &str,
    text: &[u8],
    certificate: &[u8],
) -> Result<Vec<u8>, AllocError> {
    let Some(facts) = facts_of(alloc, certificate)? else {
        return Ok(Vec::new(alloc));
    };
    let Some(listed) = listed_program(alloc, text)? else {
        return Ok(Vec::new(alloc));
    };
    let mut causes = Causes::of(alloc, &listed, &facts)?;
    if is_of_lists(certificate) {
        take_lists(&mut causes, &listed, certificate);
    }
    if !causes.are_of(&listed.table) {
        return Ok(Vec::new(alloc));
    }
    let source = Source {
        name,
        text,
        listed: &listed,
    };
    let view = View {
        listed: &listed,
        causes: &causes,
        facts: facts.facts.as_slice(),
    };
    notes(alloc, source, view)
}
