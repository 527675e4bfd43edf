//! The modes of a program after an edit.

ghost use Rattle.std.specs.Prelude.{◌≡◌, ◌<◌, IfOk, length};
ghost use Rattle.precond_fixpoint.specs.Solving.{AreModes};
ghost use Rattle.truth_rows.specs.Sets.{AreSets, family_of};
ghost use Rattle.carried_preconditions.specs.Modes.{AreModesBefore, AreModesOf};

use bool_diagrams::{Diagram, Table};
use cti_terms::PredId;
use precond_fixpoint::{Mode, minimal_modes};
use sequences::Sequence;
use solved_program::Edit;
use std::alloc::{AllocError, Global};

/// What was allowed of each predicate before an edit, and its modes.
#[derive(Clone, Copy)]
pub(crate) struct ModesBefore<'a> {
    pub(crate) allowed: &'a [Diagram],
    pub(crate) modes: &'a [Sequence<Mode>],
}

/// A copy of modes, in memory of its own.
fn copied_modes(alloc: Global, modes: &[Mode]) -> Result<Sequence<Mode>, AllocError>
    ensures { IfOk result (λ copy. copy ≡ modes.now) }
{
    let mut copy = Sequence::new(alloc);
    for mode in modes {
        let args = mode.args.copy(alloc)?;
        copy.push(Mode { args })?;
    }
    Ok(copy)
}

/// The modes of one predicate: those that it had, where it was there and the same rows are allowed.
fn own_modes(
    alloc: Global,
    edit: &Edit<'_>,
    before: &ModesBefore<'_>,
    table: &Table,
    allowed: &[Diagram],
    pred: PredId,
) -> Result<Sequence<Mode>, AllocError>
    requires pred { pred.0 < length edit.now.after.now.preds }
    requires before { AreModesBefore edit.now.before.now.preds table.now before.now }
    requires allowed { AreSets edit.now.after.now.preds table.now allowed.now }
    ensures { IfOk result (AreModesOf edit.now.after.now.preds
        (family_of edit.now.after.now.preds table.now allowed.now) pred.0) }
{
    let _before = edit.before.preds();
    let _after = edit.after.preds();
    let own = edit.after.pred(pred);
    let set = allowed[pred.0 as usize];
    match edit.before.find(own.name, own.arity) {
        Some(old) => {
            let there = old.0 as usize;
            if table.same(set, before.allowed[there]) {
                copied_modes(alloc, before.modes[there].as_slice())
            } else {
                minimal_modes(alloc, table, set, own.arity)
            }
        }
        None => minimal_modes(alloc, table, set, own.arity),
    }
}

/// The minimal modes of each predicate after an edit, in order, where these are the sets of rows that are allowed.
///
/// A predicate of which the same rows were allowed before the edit has the modes that it had. Those of each other one
/// are found anew.
pub fn resolve_modes(
    alloc: Global,
    edit: &Edit<'_>,
    allowed_before: &[Diagram],
    modes_before: &[Sequence<Mode>],
    table: &Table,
    allowed: &[Diagram],
) -> Result<Sequence<Sequence<Mode>>, AllocError>
    requires before { AreSets edit.now.before.now.preds table.now allowed_before.now }
    requires modes { AreModes edit.now.before.now.preds
        (family_of edit.now.before.now.preds table.now allowed_before.now) modes_before.now }
    requires allowed { AreSets edit.now.after.now.preds table.now allowed.now }
    ensures { IfOk result (AreModes edit.now.after.now.preds
        (family_of edit.now.after.now.preds table.now allowed.now)) }
{
    let before = ModesBefore {
        allowed: allowed_before,
        modes: modes_before,
    };
    let mut list = Sequence::new(alloc);
    for q in 0..edit.after.preds() {
        let own = own_modes(alloc, edit, &before, table, allowed, PredId(q))?;
        list.push(own)?;
    }
    Ok(list)
}
