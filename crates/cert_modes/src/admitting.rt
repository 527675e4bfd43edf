//! Whether modes are admitted.

ghost use Rattle.std.specs.Prelude.{◌≡◌, ◌≤◌, ℕ, IsTrue, length, slice_get, Some};
ghost use Rattle.std.specs.List.{list_all};
ghost use Rattle.truth_rows.specs.Sets.{AreSets};
ghost use Rattle.bool_diagrams.specs.Cubes.{truth_rows};
ghost use Rattle.bool_diagrams.specs.Rows.{IsDiagram, ReadsBelow};
ghost use Rattle.bool_diagrams.specs.declared.diagram.Diagram.{Diagram as TheDiagram};
ghost use Rattle.cert_structure.specs.Shape.{arity_in, items_of};
ghost use Rattle.cert_modes.specs.Marks.{IsMarked, mark_at};
ghost use Rattle.termination_model.specs.claims.Descent.{mode_row};

use crate::fault::ModeReason;
use crate::marks::Marks;
use bool_diagrams::{Diagram, Table};
use cti_terms::{MOST_ARGUMENTS, PredId, Program};
use sequences::Sequence;
use truth_rows::admits;

/// Marks each predicate with a mode whose row its set lacks. It takes no memory.
pub(crate) fn mark_refused(
    table: &Table,
    p: &Program,
    modes: &[Sequence<Sequence<u32>>],
    sets: &[Diagram],
    marks: &mut Marks,
)
    requires modes { length modes.now ≡ length p.now.preds }
    requires sets { AreSets p.now.preds table.now sets.now }
    requires marks { length marks.old ≡ length p.now.preds }
    ensures each { length marks.new ≡ length marks.old }
    ensures admitted { (q : ℕ) → IsMarked ((d : TheDiagram) → slice_get sets.now q ≡ Some d
        → IsTrue (list_all (λ mode. truth_rows table.now d (mode_row mode 1 (arity_in p.now q)))
        (items_of modes.now q))) ModeReason.Mode
        (mark_at marks.old q) (mark_at marks.new q) }
{
    for q in 0..p.preds() {
        let arity = p.pred(PredId(q)).arity;
        let admitted = are_admitted(table, sets[q as usize], modes[q as usize].as_slice(), arity);
        marks.note(PredId(q), admitted, ModeReason::Mode);
    }
}

/// Whether a set has the row of each mode.
fn are_admitted(table: &Table, set: Diagram, modes: &[Sequence<u32>], arity: u32) -> bool
    requires known { IsDiagram table.now set }
    requires reads { ReadsBelow table.now set arity }
    requires narrow { arity ≤ MOST_ARGUMENTS }
    ensures { result ≡ list_all
        (λ mode. truth_rows table.now set (mode_row mode 1 arity)) modes.now }
{
    for mode in modes {
        if !admits(table, set, mode.as_slice(), arity) {
            return false;
        }
    }
    true
}
