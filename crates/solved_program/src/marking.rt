//! Marks of the predicates whose value stayed from before an edit to after it.

ghost use Rattle.std.specs.Prelude.{◌≡◌, ◌<◌, IfOk, length};
ghost use Rattle.solved_program.specs.Kept.{IsEdit};
ghost use Rattle.solved_program.specs.Marks.{Always, AreMarked, AreMarkedTo, IsMarkOf};
ghost use Rattle.termination_model.specs.sizes.Sizes.{AreSizes, rows_of};
ghost use Rattle.truth_rows.specs.Sets.{AreSets, family_of};

use crate::comparing::are_same_rows;
use crate::edit::Edit;
use bool_diagrams::{Diagram, Table};
use cti_terms::PredId;
use std::alloc::{AllocError, Global};
use termination_model::SizeRows;

/// Marks the members of a component.
pub(crate) fn mark_all(edit: &Edit<'_>, c: u32, stayed: &mut [bool])
    requires edit { IsEdit edit.now }
    requires inner { c < length edit.now.components.now.members }
    requires each { length stayed.old ≡ length edit.now.after.now.preds }
    ensures { AreMarked edit.now.components.now c Always stayed.old stayed.new }
{
    for member in edit.components.members(c) {
        stayed[member.0 as usize] = true;
    }
}

/// Marks the members of a component that have the same size rows in both tables, and no others of them.
pub(crate) fn mark_same_rows(
    edit: &Edit<'_>,
    c: u32,
    before: &SizeRows,
    rows: &SizeRows,
    stayed: &mut [bool],
)
    requires edit { IsEdit edit.now }
    requires inner { c < length edit.now.components.now.members }
    requires before { AreSizes edit.now.after.now.preds before.now }
    requires rows { AreSizes edit.now.after.now.preds rows.now }
    requires each { length stayed.old ≡ length edit.now.after.now.preds }
    ensures { AreMarked edit.now.components.now c
        (λ r. rows_of rows.now r ≡ rows_of before.now r) stayed.old stayed.new }
{
    for member in edit.components.members(c) {
        let place = member.0 as usize;
        stayed[place] = are_same_rows(rows.get(place), before.get(place));
    }
}

/// Marks the members of a component that have the same truth rows in both lists, and no others of them.
pub(crate) fn mark_same_sets(
    edit: &Edit<'_>,
    c: u32,
    table: &Table,
    before: &[Diagram],
    sets: &[Diagram],
    stayed: &mut [bool],
)
    requires edit { IsEdit edit.now }
    requires inner { c < length edit.now.components.now.members }
    requires before { AreSets edit.now.after.now.preds table.now before.now }
    requires sets { AreSets edit.now.after.now.preds table.now sets.now }
    requires each { length stayed.old ≡ length edit.now.after.now.preds }
    ensures { AreMarked edit.now.components.now c
        (λ r. family_of edit.now.after.now.preds table.now sets.now r
        ≡ family_of edit.now.after.now.preds table.now before.now r) stayed.old stayed.new }
{
    for member in edit.components.members(c) {
        let place = member.0 as usize;
        stayed[place] = table.same(sets[place], before[place]);
    }
}

/// Whether a predicate has the size rows that the one of its name and arity had, if that was there.
fn has_stayed(edit: &Edit<'_>, before: &SizeRows, rows: &SizeRows, pred: PredId) -> bool
    requires pred { pred.0 < length edit.now.after.now.preds }
    requires before { AreSizes edit.now.before.now.preds before.now }
    requires rows { AreSizes edit.now.after.now.preds rows.now }
    ensures { IsMarkOf edit.now (rows_of before.now) (rows_of rows.now) pred.0 result }
{
    let _program = edit.before.preds();
    let own = edit.after.pred(pred);
    match edit.before.find(own.name, own.arity) {
        Some(old) => are_same_rows(rows.get(pred.0 as usize), before.get(old.0 as usize)),
        None => false,
    }
}

/// For each predicate after an edit a mark, where it has the size rows that the one of its name and arity had. What
/// mark a predicate has that was not there before is left open: no clause that was kept calls one.
pub fn stayed_rows(
    alloc: Global,
    edit: &Edit<'_>,
    before: &SizeRows,
    rows: &SizeRows,
) -> Result<Vec<bool>, AllocError>
    requires before { AreSizes edit.now.before.now.preds before.now }
    requires rows { AreSizes edit.now.after.now.preds rows.now }
    ensures { IfOk result (λ marks. AreMarkedTo edit.now (length edit.now.components.now.members)
        (rows_of before.now) (rows_of rows.now) marks.items) }
{
    let _program = edit.before.preds();
    let mut marks = Vec::new(alloc);
    for q in 0..edit.after.preds() {
        marks.push(has_stayed(edit, before, rows, PredId(q)))?;
    }
    Ok(marks)
}
