//! What an edit begins with: the sets from before it, under the new numbers of predicates.

ghost use Rattle.std.specs.Prelude.{◌≡◌, ◌<◌, [], IfOk, length};
ghost use Rattle.solved_program.specs.Carried.{AreCarriedValues, IsCarriedValue};

use bool_diagrams::Diagram;
use cti_terms::PredId;
use sequences::Sequence;
use solved_program::Edit;
use std::alloc::{AllocError, Global};

/// The sets that the predicate of this name and arity had, if it was there.
fn carried_own(
    alloc: Global,
    edit: &Edit<'_>,
    old: &Sequence<Sequence<Diagram>>,
    pred: PredId,
) -> Result<Sequence<Diagram>, AllocError>
    requires pred { pred.0 < length edit.now.after.now.preds }
    requires each { length old.now ≡ length edit.now.before.now.preds }
    ensures { IfOk result (IsCarriedValue edit.now old.now [] pred.0) }
{
    let _program = edit.before.preds();
    let pred = edit.after.pred(pred);
    match edit.before.find(pred.name, pred.arity) {
        Some(before) => old.get(before.0 as usize).copy(alloc),
        None => Ok(Sequence::new(alloc)),
    }
}

/// The sets that predicates had, by name and arity.
pub(crate) fn carried_lists(
    alloc: Global,
    edit: &Edit<'_>,
    old: &Sequence<Sequence<Diagram>>,
) -> Result<Vec<Sequence<Diagram>>, AllocError>
    requires { length old.now ≡ length edit.now.before.now.preds }
    ensures each { IfOk result (λ lists. length lists.items ≡ length edit.now.after.now.preds) }
    ensures carried { IfOk result (λ lists. AreCarriedValues edit.now old.now [] lists.items) }
{
    let mut lists = Vec::new(alloc);
    for q in 0..edit.after.preds() {
        let own = carried_own(alloc, edit, old, PredId(q))?;
        lists.push(own)?;
    }
    Ok(lists)
}
