//! Whether the ground rows are closed.

ghost use Rattle.std.specs.Prelude.{◌≡◌, ◌<◌, ◌↔◌, ℕ, true, IsTrue, OnOk, [], ◌∷◌, length, Some};
ghost use Rattle.truth_rows.specs.Sets.{AreSets, family_of};
ghost use Rattle.bool_diagrams.specs.Cubes.{truth_rows};
ghost use Rattle.bool_diagrams.specs.Rows.{IsDiagram, Keeps, ReadsBelow};
ghost use Rattle.cti_terms.specs.Arithmetic.{kind_of};
ghost use Rattle.cti_terms.specs.declared.builtins.Builtin.{Builtin};
ghost use Rattle.cert_modes.specs.Failing.{ClosesIn};
ghost use Rattle.cert_modes.specs.Marks.{IsMarked, mark_at};
ghost use Rattle.termination_model.specs.grounds.Grounds.{HasArity};

use crate::fault::ModeReason;
use crate::marks::Marks;
use bool_diagrams::{Diagram, Table};
use cti_terms::{PredId, Program};
use std::alloc::AllocError;
use term_size::Norm;
use truth_rows::{admits, is_closed_under};

/// Marks each predicate with a clause that gives a row which its set lacks, and each built-in one whose set lacks its
/// stated row.
pub(crate) fn mark_open<N: Norm>(
    norm: &N,
    table: &mut Table,
    p: &Program,
    sets: &[Diagram],
    marks: &mut Marks,
) -> Result<(), AllocError>
    requires sets { AreSets p.now.preds table.old sets.now }
    requires marks { length marks.old ≡ length p.now.preds }
    ensures keeps { Keeps table.old table.new }
    ensures each { OnOk result (length marks.new ≡ length marks.old) }
    ensures closed { OnOk result ((q : ℕ)
        → IsMarked (ClosesIn (N.truth norm.now) p.now
        (family_of p.now.preds table.old sets.now) q) ModeReason.Ground
        (mark_at marks.old q) (mark_at marks.new q)) }
{
    for k in 0..p.clauses() {
        let closed = is_closed_under(norm, table, p, sets, k + 1)?;
        marks.note(p.clause(k + 1).head.pred, closed, ModeReason::Ground);
    }
    mark_unstated(table, p, sets, marks);
    Ok(())
}

/// Marks each built-in predicate whose set lacks the row of two rigid arguments. It takes no memory.
fn mark_unstated(table: &Table, p: &Program, sets: &[Diagram], marks: &mut Marks)
    requires sets { AreSets p.now.preds table.now sets.now }
    requires marks { length marks.old ≡ length p.now.preds }
    ensures each { length marks.new ≡ length marks.old }
    ensures stated { (q : ℕ) → IsMarked ((b : Builtin) → kind_of p.now.arithmetic q ≡ Some b
        → IsTrue (family_of p.now.preds table.now sets.now q
        (true ∷ (true ∷ [])))) ModeReason.Ground
        (mark_at marks.old q) (mark_at marks.new q) }
{
    for q in 0..p.preds() {
        let stated = has_stated_row(table, p, PredId(q), sets[q as usize]);
        marks.note(PredId(q), stated, ModeReason::Ground);
    }
}

/// Whether the set of a predicate has the row of two rigid arguments, if it is built in.
fn has_stated_row(table: &Table, p: &Program, pred: PredId, set: Diagram) -> bool
    requires there { pred.0 < length p.now.preds }
    requires known { IsDiagram table.now set }
    requires reads { (n : ℕ) → HasArity p.now.preds pred.0 n → ReadsBelow table.now set n }
    ensures { IsTrue result ↔ ((b : Builtin) → kind_of p.now.arithmetic pred.0 ≡ Some b
        → IsTrue (truth_rows table.now set (true ∷ (true ∷ [])))) }
{
    let _program = p.clauses();
    match p.builtin(pred) {
        None => true,
        Some(_) => admits(table, set, &[1, 2], 2),
    }
}
