//! What is said of calls that lack something.

use crate::lacked::lacked_by;
use crate::showing::{MOST_CALLS, Source, needs_shown};
use messages::Place;
use mode_causes::{CallAt, View};
use std::alloc::{AllocError, Global};

/// The places of the first of these calls, as lines and columns.
fn places_shown(
    alloc: Global,
    source: Source<'_, '_, '_>,
    calls: &[CallAt],
) -> Result<String, AllocError> {
    let mut shown = String::new(alloc);
    let most = calls.len().min(MOST_CALLS as usize);
    for call in calls.get(..most).unwrap_or(&[]) {
        if let Some(at) = call.at {
            let Place { line, column, .. } = source.place(at);
            let before = if shown.is_empty() { "" } else { ", " };
            let item = format!(in alloc; "{before}{line}:{column}")?;
            shown.push_str(&item)?;
        }
    }
    if calls.len() > most {
        shown.push_str(", ..")?;
    }
    Ok(shown)
}

/// The places of the calls of a predicate's group that may lack something, after a colon, or nothing.
pub(crate) fn unsure_shown(
    alloc: Global,
    source: Source<'_, '_, '_>,
    calls: &[CallAt],
) -> Result<String, AllocError> {
    if calls.is_empty() {
        return Ok(String::new(alloc));
    }
    let places = places_shown(alloc, source, calls)?;
    format!(in alloc; ": {places}")
}

/// A sentence that more calls lack something than the first of these, or nothing.
fn others_shown(
    alloc: Global,
    source: Source<'_, '_, '_>,
    calls: &[CallAt],
) -> Result<String, AllocError> {
    let others = calls.get(1..).unwrap_or(&[]);
    if others.is_empty() {
        return Ok(String::new(alloc));
    }
    let places = places_shown(alloc, source, others)?;
    if others.len() == 1 {
        format!(in alloc; "; the call at {places} lacks something too")
    } else {
        format!(in alloc; "; the calls at {places} lack something too")
    }
}

/// What a call of a predicate needs.
pub(crate) fn need_shown(
    alloc: Global,
    source: Source<'_, '_, '_>,
    view: View<'_, '_, '_>,
    callee: u32,
) -> Result<String, AllocError> {
    let known = view.causes.known_word();
    let shown = source.shown(alloc, callee)?;
    if view.listed.is_disjunction(callee) {
        return format!(in alloc; "{shown} needs more to be {known}");
    }
    let needs = needs_shown(alloc, view, callee)?;
    format!(in alloc; "{shown} at this call needs {needs} {known}")
}

/// Behind which own call something is lacking, or nothing.
fn after_shown(
    alloc: Global,
    source: Source<'_, '_, '_>,
    call: CallAt,
) -> Result<String, AllocError> {
    let Some(at) = call.after else {
        return Ok(String::new(alloc));
    };
    let Place { line, column, .. } = source.place(at);
    format!(in alloc; " after the call at {line}:{column}")
}

/// Which variables a call lacks.
fn names_shown(
    alloc: Global,
    source: Source<'_, '_, '_>,
    view: View<'_, '_, '_>,
    call: CallAt,
) -> Result<String, AllocError> {
    let known = view.causes.known_word();
    let lacked = lacked_by(alloc, source, view, call)?;
    if lacked.count == 0 {
        return format!(in alloc; "no {known} arguments of a query make sure of that");
    }
    let after = after_shown(alloc, source, call)?;
    let names = lacked.names.as_str();
    let verb = if lacked.count == 1 { "is" } else { "are" };
    format!(in alloc;
        "{names} {verb} not known to be {known} there{after}, even if all arguments of the query are {known}"
    )
}

/// What the first of these calls lacks, and which others lack something.
pub(crate) fn lack_shown(
    alloc: Global,
    source: Source<'_, '_, '_>,
    view: View<'_, '_, '_>,
    calls: &[CallAt],
) -> Result<String, AllocError> {
    let Some(call) = calls.first() else {
        return Ok(String::new(alloc));
    };
    let names = names_shown(alloc, source, view, *call)?;
    let others = others_shown(alloc, source, calls)?;
    format!(in alloc; "{names}{others}")
}

/// What to do about an own call, at this place, that does not pass on what is known.
fn pass_advice(
    alloc: Global,
    source: Source<'_, '_, '_>,
    known: &str,
    at: u32,
) -> Result<String, AllocError> {
    let Place { line, column, .. } = source.place(at);
    format!(in alloc; "let the call at {line}:{column} pass on arguments that are {known}")
}

/// What to do about a call that lacks something: the variables are named where all of them are needed.
pub(crate) fn lack_advice(
    alloc: Global,
    source: Source<'_, '_, '_>,
    view: View<'_, '_, '_>,
    call: CallAt,
    advice: &str,
) -> Result<String, AllocError> {
    let known = view.causes.known_word();
    if let Some(at) = call.after {
        return pass_advice(alloc, source, known, at);
    }
    let lacked = lacked_by(alloc, source, view, call)?;
    if view.modes_of(call.callee).len() != 1 || !lacked.is_named() {
        return format!(in alloc; "{advice}");
    }
    let names = lacked.names.as_str();
    format!(in alloc;
        "call something before it that makes {names} {known}, or give the clause's head one more argument"
    )
}
