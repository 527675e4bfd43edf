//! The text of the warnings.

use crate::finding::{defined_in, query_warnings_in, warnings_in};
use crate::findings::Findings;
use crate::libraries::library_of;
use crate::parts::{indicator_of, text_of};
use crate::sentence::WarningSentence;
use crate::warning::Warning;
use cti_terms::{Name, Names, Pred};
use messages::status::{DONE, NO, STOPPED};
use messages::{Ending, Place, push_excerpt, push_help, push_shown};
use mistakes::is_certificate;
use prolog_reader::{ReadText, read_query, read_text};
use std::alloc::{AllocError, Global};
use token_search::variable_at;

/// How many warnings are written about a text.
const MOST_WARNINGS: usize = 20;

/// The most names of a program that leave room for those of a query.
const MOST_NAMES: u32 = 4_000_000_000;

/// What to do about a certificate that is read as a program.
const CERTIFICATE_ADVICE: &str =
    "a certificate is checked by `cti check FILE CERT`, where FILE has its program";

/// The text of a name, as far as it is text.
fn str_of(names: &Names, name: Name) -> &str {
    std::str::from_utf8(text_of(names, name)).unwrap_or("?")
}

/// The variables at some places, as they are said.
fn variables_at(alloc: Global, text: &[u8], places: &[u32]) -> Result<String, AllocError> {
    let mut said = String::new(alloc);
    for (count, at) in places.iter().enumerate() {
        if count > 0 {
            said.push_str(", ")?;
        }
        said.push_str("`")?;
        said.push_str(variable_at(text, *at).unwrap_or("?"))?;
        said.push_str("`")?;
    }
    Ok(said)
}

/// A predicate as it is said, or an empty text if there is none.
fn said(alloc: Global, names: &Names, pred: Option<Pred>) -> Result<String, AllocError> {
    match pred {
        Some(pred) => indicator_of(alloc, text_of(names, pred.name), pred.arity),
        None => Ok(String::new(alloc)),
    }
}

/// The sentence of a warning about `pred` and `other`, or about `count` variables.
fn sentence_of<'a>(
    warning: Warning,
    pred: &'a str,
    other: &'a str,
    variables: &'a str,
    count: usize,
) -> WarningSentence<'a> {
    match warning {
        Warning::NoClause { caller: None, .. } => WarningSentence::NoClauseInQuery(pred),
        Warning::NoClause { .. } => WarningSentence::NoClause {
            pred,
            caller: other,
        },
        Warning::OtherArity { .. } => WarningSentence::OtherArity { pred, other },
        Warning::NoValue { .. } => WarningSentence::NoValue(pred),
        Warning::Singletons { .. } if count == 1 => WarningSentence::Singleton(variables),
        Warning::Singletons { .. } => WarningSentence::Singletons(variables),
    }
}

/// What to do about a warning, where its sentence does not say it.
fn advice_of(names: &Names, warning: Warning) -> Option<&'static str> {
    match warning {
        Warning::NoClause { pred, .. } => {
            let library = library_of(str_of(names, pred.name), pred.arity);
            Some(library.advice())
        }
        Warning::NoValue { .. } => Some(
            "an expression has only integers, variables, `+`, `-` and `*`: write clauses for what else it needs",
        ),
        _ => None,
    }
}

/// A text that is warned about, and its names.
#[derive(Clone, Copy)]
struct Named<'n, 't, 'p> {
    name: &'n str,
    text: &'t [u8],
    names: &'p Names,
}

/// Adds a warning, with its line.
fn push_warning(
    alloc: Global,
    message: &mut Vec<u8>,
    named: Named<'_, '_, '_>,
    warning: Warning,
    places: &[u32],
) -> Result<(), AllocError> {
    let place = Place::of(named.name, named.text, warning.at());
    let variables = variables_at(alloc, named.text, places)?;
    let pred = said(alloc, named.names, warning.pred())?;
    let other = said(alloc, named.names, warning.other())?;
    let sentence = sentence_of(warning, &pred, &other, &variables, places.len());
    push_head(alloc, message, named.text, place, sentence)?;
    match advice_of(named.names, warning) {
        Some(advice) => push_help(message, advice),
        None => Ok(()),
    }
}

/// The places of the variables that a warning names.
fn named_places(places: &[u32], warning: Warning) -> &[u32] {
    match warning {
        Warning::Singletons { start, count, .. } => {
            let rest = places.get(start..).unwrap_or(&[]);
            rest.get(..count).unwrap_or(rest)
        }
        _ => &[],
    }
}

/// The text of the warnings about a named text, and of how many more there are.
fn told(
    alloc: Global,
    named: Named<'_, '_, '_>,
    findings: &Findings,
) -> Result<Vec<u8>, AllocError> {
    let mut message = Vec::new(alloc);
    for warning in findings.warnings.iter().take(MOST_WARNINGS) {
        let places = named_places(&findings.places, *warning);
        push_warning(alloc, &mut message, named, *warning, places)?;
    }
    push_more(alloc, &mut message, findings.warnings.len())?;
    Ok(message)
}

/// Adds how many warnings are left out.
fn push_more(alloc: Global, message: &mut Vec<u8>, count: usize) -> Result<(), AllocError> {
    let more = count.saturating_sub(MOST_WARNINGS);
    if more == 0 {
        return Ok(());
    }
    let line = format!(in alloc; "cti: warnings left out: {more}\n")?;
    message.extend_from_slice(line.as_bytes())
}

/// Adds the first line of a warning, and the line of the text.
fn push_head(
    alloc: Global,
    message: &mut Vec<u8>,
    text: &[u8],
    place: Place<'_>,
    sentence: WarningSentence<'_>,
) -> Result<(), AllocError> {
    let head = format!(in alloc; "{place}: warning: {sentence}")?;
    push_shown(message, head.as_bytes())?;
    message.push(b'\n')?;
    push_excerpt(message, text, place)
}

/// The warning about a certificate that is read as a program.
fn certificate_warning(alloc: Global, name: &str, text: &[u8]) -> Result<Vec<u8>, AllocError> {
    let mut message = Vec::new(alloc);
    let place = Place::of(name, text, 0);
    push_head(
        alloc,
        &mut message,
        text,
        place,
        WarningSentence::Certificate,
    )?;
    push_help(&mut message, CERTIFICATE_ADVICE)?;
    Ok(message)
}

/// The text of the warnings about a program, which is empty where there are none or the text is not a program's.
pub fn program_warnings(alloc: Global, name: &str, text: &[u8]) -> Result<Vec<u8>, AllocError> {
    if is_certificate(text) {
        return certificate_warning(alloc, name, text);
    }
    let mut names = Names::new(alloc);
    let Ok(read) = read_text(alloc, text, &mut names) else {
        return Ok(Vec::new(alloc));
    };
    let findings = warnings_in(alloc, text, &names, read.clauses.as_slice())?;
    let named = Named {
        name,
        text,
        names: &names,
    };
    told(alloc, named, &findings)
}

/// The text of the warnings about a query of a program that was read, whose names these are.
fn warnings_asked(
    alloc: Global,
    query: &[u8],
    names: &mut Names,
    read: &ReadText,
) -> Result<Vec<u8>, AllocError> {
    let defined = defined_in(alloc, names, read.clauses.as_slice())?;
    if names.count() > MOST_NAMES {
        return Ok(Vec::new(alloc));
    }
    let Ok(asked) = read_query(alloc, query, names, &read.ops) else {
        return Ok(Vec::new(alloc));
    };
    let findings = query_warnings_in(alloc, names, &asked, &defined)?;
    let named = Named {
        name: "query",
        text: query,
        names,
    };
    told(alloc, named, &findings)
}

/// The text of the warnings about a query of a program, in the same way.
pub fn query_warnings(alloc: Global, text: &[u8], query: &[u8]) -> Result<Vec<u8>, AllocError> {
    let mut names = Names::new(alloc);
    match read_text(alloc, text, &mut names) {
        Ok(read) => warnings_asked(alloc, query, &mut names, &read),
        Err(_) => Ok(Vec::new(alloc)),
    }
}

/// The warnings about the program and the query of a call that answered.
pub fn warn(alloc: Global, ending: Ending<'_>) -> Result<Vec<u8>, AllocError> {
    if !matches!(ending.status, DONE | NO | STOPPED) {
        return Ok(Vec::new(alloc));
    }
    let words = ending.told_words();
    let mut message = program_warnings(alloc, words.file(), ending.program)?;
    if words.has_query() {
        let more = query_warnings(alloc, ending.program, words.second().as_bytes())?;
        message.extend_from_slice(&more)?;
    }
    Ok(message)
}
