//! Whether members stand in one order.

ghost use Rattle.std.specs.Prelude.{◌≡◌, ◌<◌, ◌↔◌, IsTrue, length, map, slice_get};
ghost use Rattle.std.specs.List.{AllByRecursion};
ghost use Rattle.call_components.specs.Numbers.{number_of};
ghost use Rattle.carried_mappings.specs.Order.{AreNamesakes, named_by};

use cti_terms::{Pred, PredId};
use solved_program::Edit;

/// Whether two predicates have one name and one arity.
fn is_same_pred(a: &Pred, b: &Pred) -> bool
    ensures { IsTrue result ↔ (a.now ≡ b.now) }
{
    a.name.0 == b.name.0 && a.arity == b.arity
}

/// Whether a predicate of the program before an edit has the name and arity of one of the program after it.
pub(crate) fn is_namesake(edit: &Edit<'_>, before: PredId, after: PredId) -> bool
    requires before { before.0 < length edit.now.before.now.preds }
    requires after { after.0 < length edit.now.after.now.preds }
    ensures { IsTrue result ↔ AreNamesakes edit.now before.0 after.0 }
{
    is_same_pred(edit.before.pred(before), edit.after.pred(after))
}

/// Whether predicates of the program before an edit have the names and arities of those of the program after it, in
/// order.
pub(crate) fn have_same_names(edit: &Edit<'_>, before: &[PredId], after: &[PredId]) -> bool
    requires before { AllByRecursion (λ q. q.0 < length edit.now.before.now.preds) before.now }
    requires after { AllByRecursion (λ q. q.0 < length edit.now.after.now.preds) after.now }
    ensures { IsTrue result ↔ (named_by edit.now.before.now (map number_of before.now)
        ≡ named_by edit.now.after.now (map number_of after.now)) }
{
    if before.len() != after.len() {
        return false;
    }
    for i in 0..before.len() {
        if !is_namesake(edit, before[i], after[i]) {
            return false;
        }
    }
    true
}
