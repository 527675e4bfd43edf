//! Whether what a predicate's preconditions depend on has stayed.

ghost use Rattle.std.specs.Prelude.{◌≡◌, ◌<◌, ◌↔◌, ℕ, IsTrue, length, map, true};
ghost use Rattle.call_components.specs.Partition.{IsIn};
ghost use Rattle.solved_program.specs.Kept.{IsEdit};
ghost use Rattle.truth_rows.specs.Sets.{AreSets};
ghost use Rattle.carried_preconditions.specs.Same.{HaveInputs, IsSameAs, coefficients_in, input_values};
ghost use Rattle.carried_preconditions.specs.Solved.{rows_with};

use crate::preconditions::{Inputs, PreconditionsBefore};
use bool_diagrams::{Diagram, Table};
use cti_terms::PredId;
use number_tests::LevelPart;
use solved_program::Edit;

/// Whether two parts of mappings have the same coefficients.
fn is_same_part(a: &LevelPart, b: &LevelPart) -> bool
    ensures { IsTrue result ↔ (coefficients_in a.now ≡ coefficients_in b.now) }
{
    a.coeffs.as_slice() == b.coeffs.as_slice()
}

/// Whether two lists have parts with the same coefficients, in the same order.
fn are_same_parts(a: &[LevelPart], b: &[LevelPart]) -> bool
    ensures { IsTrue result ↔ (map coefficients_in a.now ≡ map coefficients_in b.now) }
{
    if a.len() != b.len() {
        return false;
    }
    for i in 0..a.len() {
        if !is_same_part(&a[i], &b[i]) {
            return false;
        }
    }
    true
}

/// Whether a predicate was there before an edit, with the same ground rows and the same coefficients in each mapping.
fn is_kept(
    edit: &Edit<'_>,
    before: &Inputs<'_>,
    now: &Inputs<'_>,
    table: &Table,
    pred: PredId,
) -> bool
    requires pred { pred.0 < length edit.now.after.now.preds }
    requires before { HaveInputs edit.now.before.now.preds before.now table.now }
    requires now { HaveInputs edit.now.after.now.preds now.now table.now }
    ensures { IsTrue result ↔ IsSameAs edit.now
        (input_values edit.now.before.now.preds table.now before.now)
        (input_values edit.now.after.now.preds table.now now.now) pred.0 }
{
    let _program = edit.before.preds();
    let own = edit.after.pred(pred);
    match edit.before.find(own.name, own.arity) {
        Some(old) => {
            let here = pred.0 as usize;
            let there = old.0 as usize;
            table.same(now.grounds[here], before.grounds[there])
                && are_same_parts(now.levels[here].as_slice(), before.levels[there].as_slice())
        }
        None => false,
    }
}

/// Whether each member of a component is such a predicate.
pub(crate) fn are_kept(
    edit: &Edit<'_>,
    before: &Inputs<'_>,
    now: &Inputs<'_>,
    table: &Table,
    c: u32,
) -> bool
    requires edit { IsEdit edit.now }
    requires inner { c < length edit.now.components.now.members }
    requires before { HaveInputs edit.now.before.now.preds before.now table.now }
    requires now { HaveInputs edit.now.after.now.preds now.now table.now }
    ensures { IsTrue result ↔ ((r : ℕ) → IsIn edit.now.components.now c r → IsSameAs edit.now
        (input_values edit.now.before.now.preds table.now before.now)
        (input_values edit.now.after.now.preds table.now now.now) r) }
{
    for member in edit.components.members(c) {
        if !is_kept(edit, before, now, table, *member) {
            return false;
        }
    }
    true
}

/// Whether a predicate was there before an edit, with the same ground rows, and the same rows allowed.
pub(crate) fn has_stayed(
    edit: &Edit<'_>,
    before: &PreconditionsBefore<'_>,
    inputs: &Inputs<'_>,
    table: &Table,
    allowed: &[Diagram],
    pred: PredId,
) -> bool
    requires pred { pred.0 < length edit.now.after.now.preds }
    requires before { AreSets edit.now.before.now.preds table.now before.now.inputs.grounds.now }
    requires old { AreSets edit.now.before.now.preds table.now before.now.solved.now.allowed }
    requires grounds { AreSets edit.now.after.now.preds table.now inputs.now.grounds.now }
    requires allowed { AreSets edit.now.after.now.preds table.now allowed.now }
    ensures { (result ≡ true) ↔ IsSameAs edit.now
        (rows_with edit.now.before.now.preds table.now
        before.now.inputs before.now.solved.now.allowed)
        (rows_with edit.now.after.now.preds table.now inputs.now allowed.now) pred.0 }
{
    let _program = edit.before.preds();
    let own = edit.after.pred(pred);
    match edit.before.find(own.name, own.arity) {
        Some(old) => {
            let here = pred.0 as usize;
            let there = old.0 as usize;
            table.same(inputs.grounds[here], before.inputs.grounds[there])
                && table.same(allowed[here], before.solved.allowed.as_slice()[there])
        }
        None => false,
    }
}
