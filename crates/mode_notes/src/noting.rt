//! The text of the notes.

use crate::hints::smaller_hint;
use crate::lacks_shown::{lack_advice, lack_shown, need_shown, unsure_shown};
use crate::note::Note;
use crate::showing::{Source, calls_shown};
use listed_programs::IntegerGoal;
use messages::{push_excerpt, push_help, push_shown};
use mistake_sentences::ShellWord;
use mode_causes::{Case, Causes, View, Why};
use std::alloc::{AllocError, Global};

/// How many notes are written at most.
const MOST_NOTES: u64 = 20;

/// Adds a note at a place, or about the whole file, with its line.
fn push_note(
    alloc: Global,
    message: &mut Vec<u8>,
    source: Source<'_, '_, '_>,
    at: Option<u32>,
    note: Note<'_>,
) -> Result<(), AllocError> {
    let place = match at {
        Some(at) => source.place(at),
        None => source.place(0),
    };
    let head = format!(in alloc; "{place}: note: {note}")?;
    push_shown(message, head.as_bytes())?;
    message.push(b'\n')?;
    push_excerpt(message, source.text, place)
}

/// The predicate of the clause whose call is to blame, or else the one that the note is about.
fn blamed_pred(view: View<'_, '_, '_>, pred: u32, why: Why) -> u32 {
    match why {
        Why::OneCall(culprit) => view.head_at(culprit.head).unwrap_or(pred),
        _ => pred,
    }
}

/// What may show that calls at which nothing gets smaller go on, besides this advice. No loop is found beyond a step of
/// integers.
fn loop_advice(
    alloc: Global,
    source: Source<'_, '_, '_>,
    pred: u32,
    advice: &str,
) -> Result<String, AllocError> {
    let Some(query) = source.query(alloc, pred)? else {
        return format!(in alloc; "{advice}");
    };
    let file = ShellWord::file(source.name);
    format!(in alloc;
        "{advice}; `cti loop {file} '{query}'`, with what you know in the place of variables, may show that the query never ends"
    )
}

/// What to do about a case, as its note says.
fn advice_of(
    alloc: Global,
    source: Source<'_, '_, '_>,
    view: View<'_, '_, '_>,
    (pred, why): (u32, Why),
    advice: &str,
) -> Result<String, AllocError> {
    match why {
        Why::OneCall(_) | Why::Calls { .. } | Why::Stuck { .. } | Why::NoList { .. }
            if !view.is_behind(why, IntegerGoal::OfIntegers) => {
            loop_advice(alloc, source, blamed_pred(view, pred, why), advice)
        }
        Why::Lacks(call) => lack_advice(alloc, source, view, call, advice),
        _ => format!(in alloc; "{advice}"),
    }
}

/// Adds what to do about a case, and what may help besides.
fn push_advice(
    alloc: Global,
    message: &mut Vec<u8>,
    advice: &str,
    hint: &str,
) -> Result<(), AllocError> {
    let said = format!(in alloc; "{advice}{hint}")?;
    push_help(message, &said)
}

/// The arguments of which none gets smaller.
fn arguments_shown(
    alloc: Global,
    source: Source<'_, '_, '_>,
    pred: u32,
    blamed: u32,
) -> Result<String, AllocError> {
    if pred == blamed {
        return format!(in alloc; "its arguments");
    }
    let shown = source.shown(alloc, blamed)?;
    format!(in alloc; "the arguments of {shown}")
}

/// What a note about calls that lack something says: what one needs, and what it lacks, or which ones they are.
fn lacking_parts(
    alloc: Global,
    source: Source<'_, '_, '_>,
    view: View<'_, '_, '_>,
    pred: u32,
) -> Result<(String, String), AllocError> {
    let component = view.listed.table.component_of(pred);
    let found = view.lacking_in(alloc, component)?;
    match found.lacking.first() {
        Some(call) => {
            let need = need_shown(alloc, source, view, call.callee)?;
            let lack = lack_shown(alloc, source, view, found.lacking.as_slice())?;
            Ok((need, lack))
        }
        None => {
            let places = unsure_shown(alloc, source, found.unsure.as_slice())?;
            Ok((String::new(alloc), places))
        }
    }
}

/// What a case's note says besides the predicate.
fn parts_of(
    alloc: Global,
    source: Source<'_, '_, '_>,
    view: View<'_, '_, '_>,
    pred: u32,
    why: Why,
) -> Result<(String, String), AllocError> {
    let none = String::new(alloc);
    match why {
        Why::OneCall(_) => {
            let blamed = blamed_pred(view, pred, why);
            Ok((arguments_shown(alloc, source, pred, blamed)?, none))
        }
        Why::Callee(callee) => Ok((source.shown(alloc, callee)?, none)),
        Why::Needs(callee) => Ok((need_shown(alloc, source, view, callee)?, none)),
        Why::Calls { start, points }
        | Why::Stuck { start, points }
        | Why::NoList { start, points } => {
            let places = calls_shown(alloc, source, view, start, points)?;
            Ok((none, places))
        }
        Why::Lacks(_) | Why::Unmet => lacking_parts(alloc, source, view, pred),
        _ => Ok((none, String::new(alloc))),
    }
}

/// A case as a note.
fn note_of<'a>(
    why: Why,
    causes: &Causes,
    pred: &'a str,
    named: &'a str,
    said: &'a str,
) -> Note<'a> {
    let known = causes.known_word();
    match why {
        Why::OneCall(_) => Note::OneCall {
            pred,
            arguments: named,
        },
        Why::Calls { .. } => Note::Calls { pred, places: said },
        Why::Stuck { .. } => Note::Stuck { pred, places: said },
        Why::NoList { .. } => Note::NoList { pred, places: said },
        Why::Large(positions) => Note::Large { pred, positions },
        Why::Blown if causes.is_of_lists => Note::BlownLists(pred),
        Why::Blown => Note::Blown(pred),
        Why::Callee(_) => Note::Callee {
            pred,
            callee: named,
        },
        Why::Needs(_) => Note::Needs {
            pred,
            need: named,
            known,
        },
        Why::Lacks(_) => Note::Lacks {
            pred,
            need: named,
            lack: said,
        },
        Why::Unmet => Note::Unmet {
            pred,
            known,
            places: said,
        },
        Why::Unknown => Note::Unknown(pred),
    }
}

/// Adds the note about a predicate.
fn push_case(
    alloc: Global,
    message: &mut Vec<u8>,
    source: Source<'_, '_, '_>,
    view: View<'_, '_, '_>,
    pred: u32,
) -> Result<(), AllocError> {
    let Case { why, at } = view.case_of(alloc, pred)?;
    let shown = source.shown(alloc, pred)?;
    let (named, said) = parts_of(alloc, source, view, pred, why)?;
    let note = note_of(why, view.causes, &shown, &named, &said);
    push_note(alloc, message, source, at, note)?;
    let advice = advice_of(alloc, source, view, (pred, why), note.advice())?;
    push_advice(alloc, message, &advice, smaller_hint(source, view, why))
}

/// The notes about the predicates without a mode, one for each component that has one.
pub(crate) fn notes(
    alloc: Global,
    source: Source<'_, '_, '_>,
    view: View<'_, '_, '_>,
) -> Result<Vec<u8>, AllocError> {
    let mut message = Vec::new(alloc);
    let mut told = vec![in alloc; false; view.listed.table.preds.len()]?;
    let mut count = 0u64;
    let mut pred = 0u32;
    for _ in &view.listed.table.preds {
        let component = view.listed.table.component_of(pred) as usize;
        let is_new = told.get(component) == Some(&false);
        if is_new && view.modes_of(pred).is_empty() {
            if let Some(place) = told.get_mut(component) {
                *place = true;
            }
            count = count.saturating_add(1);
            if count <= MOST_NOTES {
                push_case(alloc, &mut message, source, view, pred)?;
            }
        }
        pred = pred.saturating_add(1);
    }
    if count > MOST_NOTES {
        let more = count.saturating_sub(MOST_NOTES);
        let line = format!(in alloc; "cti: notes left out: {more}\n")?;
        message.extend_from_slice(line.as_bytes())?;
    }
    Ok(message)
}
