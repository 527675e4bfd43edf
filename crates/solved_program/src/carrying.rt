//! What an edit begins with: the rows and the proofs from before it, under the new numbers.

ghost use Rattle.std.specs.Prelude.{◌≡◌, ◌<◌, ◌≤◌, ◌-◌, [], ℕ, IfOk, IfSome, Some, length, slice_get};
ghost use Rattle.termination_model.specs.sizes.Sizes.{AreSizes};
ghost use Rattle.solved_program.specs.Carried.{AreCarriedProofs, AreCarriedRows, IsCarriedRow};
ghost use Rattle.solved_program.specs.Kept.{AreKept};

use crate::edit::Edit;
use crate::solved_sizes::SolvedSizes;
use cti_terms::PredId;
use linear_rows::{Multipliers, Rows, copied_multipliers};
use sequences::Sequence;
use std::alloc::{AllocError, Global};
use termination_model::{SizeRows, Sizes};

/// The rows that the predicate of this name and arity had, if it was there, and else no rows.
fn carried_row(
    alloc: Global,
    edit: &Edit<'_>,
    rows: &SizeRows,
    pred: PredId,
) -> Result<Rows, AllocError>
    requires pred { pred.0 < length edit.now.after.now.preds }
    requires rows { AreSizes edit.now.before.now.preds rows.now }
    ensures { IfOk result (IsCarriedRow edit.now.before.now.preds edit.now.after.now.preds rows.now pred.0) }
{
    let _program = edit.before.preds();
    let pred = edit.after.pred(pred);
    match edit.before.find(pred.name, pred.arity) {
        Some(before) => rows.get(before.0 as usize).copy(alloc),
        None => Ok(Rows::new(alloc, pred.arity)),
    }
}

/// The carried rows of each predicate.
fn carried_rows(alloc: Global, edit: &Edit<'_>, rows: &SizeRows) -> Result<SizeRows, AllocError>
    requires { AreSizes edit.now.before.now.preds rows.now }
    ensures each { IfOk result (λ carried. length carried ≡ length edit.now.after.now.preds) }
    ensures rows { IfOk result
        (AreCarriedRows edit.now.before.now.preds edit.now.after.now.preds rows.now) }
{
    let mut carried = SizeRows::new(alloc);
    for q in 0..edit.after.preds() {
        let own = carried_row(alloc, edit, rows, PredId(q))?;
        carried.push(own)?;
    }
    Ok(carried)
}

/// The proofs that a clause had, if it was kept, and else none.
fn carried_by(
    alloc: Global,
    kept: Option<u32>,
    proofs: &Sequence<Sequence<Multipliers>>,
) -> Result<Sequence<Multipliers>, AllocError>
    requires { IfSome kept (λ j. (1 ≤ j) × (j ≤ length proofs.now)) }
    ensures { IfOk result (λ by. (j : ℕ) → kept ≡ Some j → slice_get proofs.now (j - 1) ≡ Some by) }
{
    match kept {
        Some(k) => copied_multipliers(alloc, proofs.get(k as usize - 1).as_slice()),
        None => Ok(Sequence::new(alloc)),
    }
}

/// The carried proofs of each clause.
fn carried_proofs(
    alloc: Global,
    edit: &Edit<'_>,
    proofs: &Sequence<Sequence<Multipliers>>,
) -> Result<Sequence<Sequence<Multipliers>>, AllocError>
    requires kept { AreKept edit.now.before.now edit.now.after.now edit.now.kept.now }
    requires each { length proofs.now ≡ length edit.now.before.now.clauses }
    ensures each { IfOk result (λ carried. length carried ≡ length edit.now.kept.now) }
    ensures same { IfOk result (AreCarriedProofs edit.now.kept.now proofs.now) }
{
    let mut carried = Sequence::new(alloc);
    for kept in edit.kept {
        let by = carried_by(alloc, *kept, proofs)?;
        carried.push(by)?;
    }
    Ok(carried)
}

/// No steps, and the rows and proofs from before an edit.
pub(crate) fn carried(
    alloc: Global,
    edit: &Edit<'_>,
    old: &SolvedSizes,
) -> Result<SolvedSizes, AllocError>
    requires kept { AreKept edit.now.before.now edit.now.after.now edit.now.kept.now }
    requires rows { AreSizes edit.now.before.now.preds old.now.sizes.rows }
    requires each { length old.now.sizes.proofs ≡ length edit.now.before.now.clauses }
    ensures sizes { IfOk result (λ s. AreSizes edit.now.after.now.preds s.sizes.rows) }
    ensures count { IfOk result (λ s. length s.sizes.proofs ≡ length edit.now.after.now.clauses) }
    ensures rows { IfOk result
        (λ s. AreCarriedRows edit.now.before.now.preds edit.now.after.now.preds
        old.now.sizes.rows s.sizes.rows) }
    ensures proofs { IfOk result
        (λ s. AreCarriedProofs edit.now.kept.now old.now.sizes.proofs s.sizes.proofs) }
    ensures steps { IfOk result (λ s. s.steps ≡ []) }
{
    let rows = carried_rows(alloc, edit, &old.sizes.rows)?;
    let proofs = carried_proofs(alloc, edit, &old.sizes.proofs)?;
    Ok(SolvedSizes {
        steps: Sequence::new(alloc),
        sizes: Sizes { rows, proofs },
    })
}
