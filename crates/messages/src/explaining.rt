//! The message about a call.

use crate::ending::Ending;
use crate::file_cause::FileCause;
use crate::status::FILE_FAULT;
use crate::telling::message;
use crate::trouble::Trouble;
use std::alloc::{AllocError, Global};
use std::fs;
use std::rt::Files;
use word_faults::Words;

/// Whether there is a file of this name.
fn is_file<R: Files>(rt: &R, name: &str) -> bool {
    match fs::metadata(rt, name) {
        Ok(metadata) => metadata.is_file(),
        Err(_) => false,
    }
}

/// Why a file cannot be loaded, as far as this can be seen without reading it.
fn cause_of<R: Files>(rt: &R, name: &str) -> Option<FileCause> {
    match fs::metadata(rt, name) {
        Ok(metadata) if metadata.is_dir() => Some(FileCause::Directory),
        Ok(metadata) if metadata.is_file() => match fs::open(rt, name) {
            Ok(_) => None,
            Err(error) => Some(FileCause::of(error.kind())),
        },
        Ok(_) => None,
        Err(error) => Some(FileCause::of(error.kind())),
    }
}

/// The cause, with whether a query stands in the place of the file that is missing.
fn cause_with_query<R: Files>(rt: &R, words: Words<'_>, cause: FileCause) -> FileCause {
    if matches!(cause, FileCause::Missing) && words.has_query() && is_file(rt, words.second()) {
        FileCause::Exchanged
    } else {
        cause
    }
}

/// Which file could not be loaded, and why: the program's, unless only the certificate's shows a cause.
fn file_trouble<'a, R: Files>(rt: &R, words: Words<'a>) -> Trouble<'a> {
    if let Some(cause) = cause_of(rt, words.file()) {
        return Trouble::File(words.file(), cause_with_query(rt, words, cause));
    }
    if words.has_certificate()
        && let Some(cause) = cause_of(rt, words.second())
    {
        return Trouble::File(words.second(), cause);
    }
    Trouble::File(words.file(), FileCause::Failed)
}

/// The message about a call whose files were loaded, which is empty where there is nothing to say.
pub fn call_message(alloc: Global, ending: Ending<'_>) -> Result<Vec<u8>, AllocError> {
    match ending.trouble() {
        Some(trouble) => message(alloc, trouble, ending.texts(trouble)),
        None => Ok(Vec::new(alloc)),
    }
}

/// The message about a call that ended so, which is empty where there is nothing to say. Only where a file was not
/// loaded is a file looked at, for the cause.
pub fn explain<R: Files + AllocGlobal>(rt: &R, ending: Ending<'_>) -> Result<Vec<u8>, AllocError> {
    if ending.status == FILE_FAULT {
        let trouble = file_trouble(rt, ending.told_words());
        return message(rt.alloc(), trouble, ending.texts(trouble));
    }
    call_message(rt.alloc(), ending)
}
