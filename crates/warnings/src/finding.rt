//! The warnings about the clauses of a text.

use crate::calls::{Call, push_calls};
use crate::expressions::push_valueless;
use crate::findings::Findings;
use crate::parts::{body_of, head_of, pred_in};
use crate::singletons::push_singletons;
use crate::warning::Warning;
use cti_terms::{Name, Names, Pred};
use indexmap::{IndexMap, IndexSet};
use prolog_reader::ReadClause;
use std::alloc::{AllocError, Global};

/// The predicates that have a clause.
pub(crate) fn defined_in(
    alloc: Global,
    names: &Names,
    clauses: &[ReadClause],
) -> Result<IndexSet<Pred>, AllocError> {
    let mut defined = IndexSet::new(alloc);
    for clause in clauses {
        if let Some(pred) = head_of(names, &clause.term).and_then(pred_in) {
            defined.insert(pred)?;
        }
    }
    Ok(defined)
}

/// The calls of the bodies of clauses, in the order of the text.
fn calls_in(alloc: Global, names: &Names, clauses: &[ReadClause]) -> Result<Vec<Call>, AllocError> {
    let mut calls = Vec::new(alloc);
    for clause in clauses {
        if let Some(body) = body_of(names, &clause.term) {
            let caller = head_of(names, &clause.term).and_then(pred_in);
            push_calls(body, names, caller, &mut calls)?;
        }
    }
    Ok(calls)
}

/// The arity of the first predicate of each name.
fn first_arities(
    alloc: Global,
    defined: &IndexSet<Pred>,
) -> Result<IndexMap<Name, u32>, AllocError> {
    let mut arities = IndexMap::new(alloc);
    for pred in defined.iter() {
        if !arities.contains_key(&pred.name) {
            arities.insert(pred.name, pred.arity)?;
        }
    }
    Ok(arities)
}

/// The warning about a call of a predicate that has no clause, where predicates with clauses have these names.
fn warning_of(call: Call, arities: &IndexMap<Name, u32>) -> Warning {
    let Call { at, pred, caller } = call;
    match arities.get(&pred.name).copied() {
        Some(arity) => Warning::OtherArity { at, pred, arity },
        None => Warning::NoClause { at, pred, caller },
    }
}

/// Adds a warning for the first call of each predicate that has no clause.
pub(crate) fn push_undefined(
    alloc: Global,
    calls: &[Call],
    defined: &IndexSet<Pred>,
    warnings: &mut Vec<Warning>,
) -> Result<(), AllocError> {
    let arities = first_arities(alloc, defined)?;
    let mut told = IndexSet::new(alloc);
    for call in calls {
        if !defined.contains(&call.pred) && told.insert(call.pred)? {
            warnings.push(warning_of(*call, &arities))?;
        }
    }
    Ok(())
}

/// A warning for the first call of each predicate that has no clause, in the clauses of a text.
fn undefined_in(
    alloc: Global,
    names: &Names,
    clauses: &[ReadClause],
) -> Result<Vec<Warning>, AllocError> {
    let defined = defined_in(alloc, names, clauses)?;
    let calls = calls_in(alloc, names, clauses)?;
    let mut warnings = Vec::new(alloc);
    push_undefined(alloc, &calls, &defined, &mut warnings)?;
    Ok(warnings)
}

/// The warnings about the clauses of a text, in the order of their places.
pub(crate) fn warnings_in(
    alloc: Global,
    text: &[u8],
    names: &Names,
    clauses: &[ReadClause],
) -> Result<Findings, AllocError> {
    let mut findings = Findings {
        warnings: undefined_in(alloc, names, clauses)?,
        places: Vec::new(alloc),
    };
    for clause in clauses {
        push_singletons(alloc, text, clause, &mut findings)?;
        if let Some(body) = body_of(names, &clause.term) {
            push_valueless(body, names, &mut findings.warnings)?;
        }
    }
    findings.warnings.sort_by_key(|warning| warning.at())?;
    Ok(findings)
}

/// The warnings about a query of a program whose clauses define these predicates.
pub(crate) fn query_warnings_in(
    alloc: Global,
    names: &Names,
    query: &ReadClause,
    defined: &IndexSet<Pred>,
) -> Result<Findings, AllocError> {
    let mut calls = Vec::new(alloc);
    push_calls(&query.term, names, None, &mut calls)?;
    let mut warnings = Vec::new(alloc);
    push_undefined(alloc, &calls, defined, &mut warnings)?;
    push_valueless(&query.term, names, &mut warnings)?;
    Ok(Findings {
        warnings,
        places: Vec::new(alloc),
    })
}
