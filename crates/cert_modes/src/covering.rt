//! Whether the rows of preconditions are true at each positive coefficient.

ghost use Rattle.std.specs.Prelude.{◌≡◌, ◌↔◌, ◌<◌, ℕ, IfOk, IsTrue, OnOk, length, map};
ghost use Rattle.bool_diagrams.specs.Rows.{Keeps};
ghost use Rattle.cert_structure.specs.Shape.{arity_in, items_of};
ghost use Rattle.cert_modes.specs.Marks.{IsMarked, mark_at};
ghost use Rattle.cert_modes.specs.Sets.{AreCovered, HaveLevels, is_positive};

use crate::fault::ModeReason;
use crate::marks::Marks;
use bool_diagrams::{Diagram, Table};
use cert_structure::LevelPart;
use cti_terms::{PredId, Program};
use sequences::Sequence;
use std::alloc::{AllocError, Global};
use truth_rows::is_covered;

/// Marks each predicate with a set that has a row which is false at a positive coefficient of its mapping.
pub(crate) fn mark_uncovered(
    alloc: Global,
    table: &mut Table,
    p: &Program,
    levels: &[Sequence<LevelPart>],
    sets: &[Sequence<Diagram>],
    marks: &mut Marks,
) -> Result<(), AllocError>
    requires levels { length levels.now ≡ length p.now.preds }
    requires sets { length sets.now ≡ length p.now.preds }
    requires marks { length marks.old ≡ length p.now.preds }
    requires each { (q : ℕ) → q < length p.now.preds
        → HaveLevels table.old (arity_in p.now q) (items_of levels.now q) (items_of sets.now q) }
    ensures keeps { Keeps table.old table.new }
    ensures each { OnOk result (length marks.new ≡ length marks.old) }
    ensures covered { OnOk result ((q : ℕ)
        → IsMarked (q < length p.now.preds
        → AreCovered table.old (items_of levels.now q)
        (items_of sets.now q)) ModeReason.Precondition
        (mark_at marks.old q) (mark_at marks.new q)) }
{
    for q in 0..p.preds() {
        let own = levels[q as usize].as_slice();
        let covered = are_covered(alloc, table, own, sets[q as usize].as_slice())?;
        marks.note(PredId(q), covered, ModeReason::Precondition);
    }
    Ok(())
}

/// Whether the rows of each mapping's set are true at its positive coefficients.
fn are_covered(
    alloc: Global,
    table: &mut Table,
    levels: &[LevelPart],
    sets: &[Diagram],
) -> Result<bool, AllocError>
    requires { (width : ℕ) × HaveLevels table.old width levels.now sets.now }
    ensures keeps { Keeps table.old table.new }
    ensures covered { IfOk result
        (λ covered. IsTrue covered ↔ AreCovered table.old levels.now sets.now) }
{
    for (mapping, level) in levels.iter().enumerate() {
        let positive = signs(alloc, level.coeffs.as_slice())?;
        let covered = is_covered(table, sets[mapping], positive.as_slice())?;
        if !covered {
            return Ok(false);
        }
    }
    Ok(true)
}

/// Whether each of these numbers is positive.
fn signs(alloc: Global, numbers: &[i128]) -> Result<Vec<bool>, AllocError>
    ensures { IfOk result (λ signs. signs.items ≡ map is_positive numbers.now) }
{
    let mut signs = Vec::new(alloc);
    for number in numbers {
        signs.push(is_positive(*number))?;
    }
    Ok(signs)
}

/// Whether a number is positive.
fn is_positive(number: i128) -> bool
    ensures { result ≡ is_positive number }
{
    number > 0
}
