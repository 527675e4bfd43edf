//! What may help where nothing gets smaller.

use crate::showing::Source;
use certificate::CertNorm;
use listed_programs::IntegerGoal;
use mode_causes::{View, Why};

/// What is said where a counter does not count.
const COUNTER: &str = "; integers have size 0, so that no counter gets smaller";

/// What is said where lists may get shorter and their elements larger.
const SHORTER: &str = "; `cti infer --norm list` may help where a list gets shorter";

/// Whether a list with a rest stands in a clause before a call, between the points of these facts.
fn takes_list(
    source: Source<'_, '_, '_>,
    view: View<'_, '_, '_>,
    head: usize,
    call: usize,
) -> bool {
    match (view.clause_place(head), view.point_place(call)) {
        (Some(clause), Some(call)) => {
            let before = source.text.get(clause as usize..call as usize);
            before.unwrap_or(&[]).contains(&b'|')
        }
        _ => false,
    }
}

/// What may help where a list with a rest stands before the call of a point, in a clause of another one.
fn list_hint(
    source: Source<'_, '_, '_>,
    view: View<'_, '_, '_>,
    head: usize,
    call: usize,
) -> &'static str {
    let is_of_terms = view.causes.norm == CertNorm::Term && !view.causes.is_of_lists;
    if is_of_terms && takes_list(source, view, head, call) {
        SHORTER
    } else {
        ""
    }
}

/// What may help besides the advice of a case, which is nothing where something else is wrong.
pub(crate) fn smaller_hint(
    source: Source<'_, '_, '_>,
    view: View<'_, '_, '_>,
    why: Why,
) -> &'static str {
    if view.is_behind(why, IntegerGoal::Computing) {
        return COUNTER;
    }
    match why {
        Why::OneCall(culprit) => list_hint(source, view, culprit.head, culprit.call),
        Why::Calls { start, .. } | Why::Stuck { start, .. } | Why::NoList { start, .. } => {
            list_hint(source, view, start, start)
        }
        _ => "",
    }
}
