//! Facts that are expected in a certificate, as they are shown.

use listed_programs::Listed;
use std::alloc::{AllocError, Global};
use warnings::indicator_of;

/// A fact that is expected. Predicates are counted from 0, all else from 1.
#[derive(Clone, Copy)]
pub(crate) enum Wanted {
    Terminates(u32),
    By {
        clause: u32,
        index: u64,
    },
    Measure {
        pred: u32,
        mapping: u64,
    },
    Falls {
        clause: u32,
        call: u32,
        mapping: u64,
    },
}

/// A predicate as a certificate has it.
fn shown_pred(alloc: Global, listed: &Listed, pred: u32) -> Result<String, AllocError> {
    let arity = match listed.table.preds.get(pred as usize) {
        Some(pred) => pred.arity,
        None => 0,
    };
    indicator_of(alloc, listed.name_of(pred), arity)
}

/// A fact as it is shown, without what its place does not determine.
pub(crate) fn shown_fact(
    alloc: Global,
    listed: &Listed,
    wanted: Wanted,
) -> Result<String, AllocError> {
    match wanted {
        Wanted::Terminates(pred) => {
            let pred = shown_pred(alloc, listed, pred)?;
            format!(in alloc; "terminates({pred},..)")
        }
        Wanted::By { clause, index } => format!(in alloc; "by({clause},{index},..)"),
        Wanted::Measure { pred, mapping } => {
            let pred = shown_pred(alloc, listed, pred)?;
            format!(in alloc; "measure({pred},{mapping},..)")
        }
        Wanted::Falls {
            clause,
            call,
            mapping,
        } => format!(in alloc; "falls({clause},{call},{mapping},..)"),
    }
}
