//! What to do about a trouble, as far as the texts show it.

use crate::excerpt::line_of;
use crate::expected::{Expected, Stop, expected_at, offset_of};
use crate::no_reason::NoReason;
use crate::place::Place;
use crate::refusal_kind::RefusalKind;
use crate::texts::Texts;
use crate::told::Subject;
use crate::trouble::Trouble;
use certificate_mistakes::{beginning_mistake, line_mistake, mode_mistake, standing_mistake};
use mistake_sentences::{FactMistake, FileMistake, Mistake};
use mistakes::{
    argument_mistake, byte_mistake, edit_mistake, goal_mistake, head_mistake, is_certificate,
    program_mistake, query_in_file, variable_mistake,
};
use std::alloc::{AllocError, Global};

/// What was expected where the text of a refusal cannot go on.
fn syntax_advice<'a>(
    alloc: Global,
    subject: Subject,
    place: Place<'_>,
    texts: Texts<'a>,
) -> Result<Expected<'a>, AllocError> {
    expected_at(
        alloc,
        Stop {
            subject,
            text: texts.told,
            line: place.line,
            column: place.column,
            operators: texts.program,
        },
    )
}

/// What a refused line of a certificate shows.
fn line_fault<'a>(place: Place<'_>, told: &'a [u8]) -> Option<FactMistake<'a>> {
    if let Some(mistake) = beginning_mistake(told, place.line) {
        return Some(mistake);
    }
    let line = line_of(told, place.line)?;
    let is_last = line_of(told, place.line.saturating_add(1)).is_none();
    line_mistake(line, is_last)
}

/// The mistake that a refused certificate shows.
fn refused_certificate<'a>(place: Place<'_>, texts: Texts<'a>) -> Option<Mistake<'a>> {
    if is_certificate(texts.program) && !is_certificate(texts.told) {
        return Some(Mistake::File(FileMistake::Exchanged));
    }
    line_fault(place, texts.told).map(Mistake::Fact)
}

/// The mistake that the size of a clause or of one of its atoms shows.
fn size_mistake<'a>(
    alloc: Global,
    kind: RefusalKind,
    text: &'a [u8],
    at: usize,
) -> Result<Option<Mistake<'a>>, AllocError> {
    let mistake = match kind {
        RefusalKind::Arity => argument_mistake(text, at),
        _ => variable_mistake(alloc, text, at)?,
    };
    Ok(mistake.map(Mistake::Clause))
}

/// The mistake that a refused text shows, but for one of its syntax or size.
fn refusal_mistake<'a>(
    subject: Subject,
    place: Place<'a>,
    kind: RefusalKind,
    texts: Texts<'a>,
) -> Option<Mistake<'a>> {
    let text = texts.told;
    let at = offset_of(text, place.line, place.column);
    match kind {
        RefusalKind::BadByte => Some(Mistake::Byte(byte_mistake(text.get(at..)?)?)),
        RefusalKind::NotPure => goal_mistake(text, at, subject.is_query()),
        RefusalKind::BadHead => head_mistake(text, at),
        RefusalKind::Directive => query_in_file(place.name, text, at).map(Mistake::File),
        RefusalKind::NotAFact => refused_certificate(place, texts),
        RefusalKind::BadEdit => Some(Mistake::Edit(edit_mistake(text, at)?)),
        _ => None,
    }
}

/// The fact of a certificate that shows why it is not valid.
fn invalid_fact<'a>(place: Place<'_>, reason: NoReason, told: &'a [u8]) -> Option<FactMistake<'a>> {
    let line = line_of(told, place.line)?;
    match reason {
        NoReason::Shape => mode_mistake(line),
        NoReason::Extra => {
            let before = line_of(told, place.line.saturating_sub(1));
            standing_mistake(told, place.line, before, line)
        }
        _ => None,
    }
}

/// The mistake that a certificate shows which is not valid.
fn certificate_mistake<'a>(
    place: Place<'_>,
    reason: NoReason,
    texts: Texts<'a>,
) -> Option<Mistake<'a>> {
    if !matches!(
        reason,
        NoReason::Missing | NoReason::Extra | NoReason::Shape
    ) {
        return None;
    }
    if is_certificate(texts.program) {
        return Some(Mistake::File(FileMistake::NoProgram));
    }
    match program_mistake(texts.program, texts.told) {
        Some(mistake) => Some(Mistake::File(mistake)),
        None => invalid_fact(place, reason, texts.told).map(Mistake::Fact),
    }
}

/// What the texts show about a trouble, as a sentence that says what to do.
pub(crate) fn shown_advice<'a>(
    alloc: Global,
    trouble: Trouble<'a>,
    texts: Texts<'a>,
) -> Result<Option<Expected<'a>>, AllocError> {
    let mistake = match trouble {
        Trouble::Refused(Subject::Program | Subject::Certificate, ..) if texts.told.is_empty() => {
            None
        }
        Trouble::Refused(subject, place, RefusalKind::Unexpected) => {
            return Ok(Some(syntax_advice(alloc, subject, place, texts)?));
        }
        Trouble::Refused(_, place, kind @ (RefusalKind::Arity | RefusalKind::ManyVariables)) => {
            let at = offset_of(texts.told, place.line, place.column);
            size_mistake(alloc, kind, texts.told, at)?
        }
        Trouble::Refused(subject, place, kind) => refusal_mistake(subject, place, kind, texts),
        Trouble::NotValid(place, reason) => certificate_mistake(place, reason, texts),
        _ => None,
    };
    Ok(mistake.map(Expected::Mistake))
}
