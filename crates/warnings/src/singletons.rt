//! Variables that occur only once in a clause.

use crate::findings::Findings;
use crate::warning::Warning;
use prolog_reader::{ReadClause, ReadShape, ReadTerm};
use std::alloc::{AllocError, Global};

/// How often a variable occurs, and where it does first.
#[derive(Clone, Copy)]
struct Occurrences {
    times: u64,
    at: u32,
}

/// Counts the variables of a term.
fn count_variables(term: &ReadTerm, counts: &mut [Occurrences]) {
    match &term.shape {
        ReadShape::Var(number) => {
            if let Some(count) = counts.get_mut(*number as usize) {
                if count.times == 0 {
                    count.at = term.at;
                }
                count.times = count.times.saturating_add(1);
            }
        }
        ReadShape::Int(_) => {}
        ReadShape::Fun(_, args) => {
            for arg in args {
                count_variables(arg, counts);
            }
        }
    }
}

/// Whether the variable at a place begins with a capital letter: one that begins with `_` may stand alone.
fn is_named(text: &[u8], at: u32) -> bool {
    match text.get(at as usize) {
        Some(byte) => byte.is_ascii_uppercase(),
        None => false,
    }
}

/// Adds a warning of the variables that occur only once in a clause of a text.
pub(crate) fn push_singletons(
    alloc: Global,
    text: &[u8],
    clause: &ReadClause,
    findings: &mut Findings,
) -> Result<(), AllocError> {
    let none = Occurrences { times: 0, at: 0 };
    let mut counts = vec![in alloc; none; clause.vars as usize]?;
    count_variables(&clause.term, counts.as_mut_slice());
    let start = findings.places.len();
    for count in &counts {
        if count.times == 1 && is_named(text, count.at) {
            findings.places.push(count.at)?;
        }
    }
    push_named(findings, start)
}

/// Adds a warning of the variables whose places stand from one of them on, if there are any.
fn push_named(findings: &mut Findings, start: usize) -> Result<(), AllocError> {
    let Some(at) = findings.places.get(start).copied() else {
        return Ok(());
    };
    let count = findings.places.len().saturating_sub(start);
    findings
        .warnings
        .push(Warning::Singletons { at, start, count })?;
    Ok(())
}
