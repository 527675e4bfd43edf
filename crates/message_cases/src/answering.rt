//! Answers to what cases ask for.

use crate::call::Call;
use crate::question::Question;
use messages::{
    FileCause, NoReason, RefusalKind, Texts, Trouble, call_message, message, push_help,
};
use mode_notes::{call_notes, check_note, norm_note, program_notes};
use std::alloc::{AllocError, Global};
use warnings::{program_warnings, query_warnings, warn};
use word_faults::Words;

/// The names of the program and of the certificate that are warned of or noted.
const PROGRAM: &str = "a.pl";

const CERTIFICATE: &str = "a.cert";

/// The name of the text that is the name of a file.
const NAME: &str = "name";

/// The answer to a question about a call.
pub(crate) fn answer(
    alloc: Global,
    call: &Call,
    question: Question,
) -> Result<Vec<u8>, AllocError> {
    let (program, certificate) = (call.text(PROGRAM), call.text(CERTIFICATE));
    match question {
        Question::Message => message_about(alloc, call),
        Question::All => all_about(alloc, call),
        Question::FirstLine => first_line(alloc, call),
        Question::LastLine => last_line(alloc, call),
        Question::Words => told_words(alloc, call),
        Question::Refusal(number) => refusal(alloc, number),
        Question::Reason(number) => reason(alloc, number),
        Question::Cause(cause) => file_message(alloc, call, cause),
        Question::Warnings => program_warnings(alloc, PROGRAM, program),
        Question::QueryWarnings => warnings_of_query(alloc, call),
        Question::Notes => program_notes(alloc, PROGRAM, program, certificate),
        Question::CheckNote => {
            check_note(alloc, CERTIFICATE, (program, certificate), call.output())
        }
        Question::NormNote => Vec::from_slice(alloc, norm_note(certificate)),
    }
}

/// The message about a call, which is empty where there is nothing to say.
fn message_about(alloc: Global, call: &Call) -> Result<Vec<u8>, AllocError> {
    let words = call.words(alloc)?;
    call_message(alloc, call.ending(&words))
}

/// The message about a call, the warnings about its texts and the notes about what it wrote.
fn all_about(alloc: Global, call: &Call) -> Result<Vec<u8>, AllocError> {
    let words = call.words(alloc)?;
    let ending = call.ending(&words);
    let mut said = call_message(alloc, ending)?;
    said.extend_from_slice(&warn(alloc, ending)?)?;
    said.extend_from_slice(&call_notes(alloc, ending, ending.output)?)?;
    Ok(said)
}

/// The first line of the message about a call.
fn first_line(alloc: Global, call: &Call) -> Result<Vec<u8>, AllocError> {
    let said = message_about(alloc, call)?;
    let mut lines = said.split_inclusive(|byte| *byte == b'\n');
    Vec::from_slice(alloc, lines.next().unwrap_or(b""))
}

/// The last line of the message about a call.
fn last_line(alloc: Global, call: &Call) -> Result<Vec<u8>, AllocError> {
    let said = message_about(alloc, call)?;
    let mut last = b"".as_slice();
    for line in said.split_inclusive(|byte| *byte == b'\n') {
        last = line;
    }
    Vec::from_slice(alloc, last)
}

/// The two words that name what a call is about, each in a line.
fn told_words(alloc: Global, call: &Call) -> Result<Vec<u8>, AllocError> {
    let words = call.words(alloc)?;
    let told = Words::of(&words);
    let lines = format!(in alloc; "{}\n{}\n", told.file(), told.second())?;
    Vec::from_slice(alloc, lines.as_bytes())
}

/// A sentence, and the line of its advice.
fn advised(alloc: Global, sentence: &str, advice: &str) -> Result<Vec<u8>, AllocError> {
    let mut lines = Vec::from_slice(alloc, sentence.as_bytes())?;
    lines.push(b'\n')?;
    push_help(&mut lines, advice)?;
    Ok(lines)
}

/// The sentence and the advice of the kind of refusal of a number, if it has one.
fn refusal(alloc: Global, number: u64) -> Result<Vec<u8>, AllocError> {
    match RefusalKind::of(number) {
        Some(kind) => advised(alloc, &format!(in alloc; "{kind}")?, kind.advice()),
        None => Ok(Vec::new(alloc)),
    }
}

/// The sentence and the advice of the reason of a No of a number, if it has one.
fn reason(alloc: Global, number: u64) -> Result<Vec<u8>, AllocError> {
    match NoReason::of(number) {
        Some(reason) => advised(alloc, &format!(in alloc; "{reason}")?, reason.advice()),
        None => Ok(Vec::new(alloc)),
    }
}

/// The message about a file that was not loaded.
fn file_message(alloc: Global, call: &Call, cause: FileCause) -> Result<Vec<u8>, AllocError> {
    let name = std::str::from_utf8(call.text(NAME)).unwrap_or("");
    message(alloc, Trouble::File(name, cause), Texts::none())
}

/// The warnings about the query of a call.
fn warnings_of_query(alloc: Global, call: &Call) -> Result<Vec<u8>, AllocError> {
    let words = call.words(alloc)?;
    let query = Words::of(&words).second();
    query_warnings(alloc, call.text(PROGRAM), query.as_bytes())
}
