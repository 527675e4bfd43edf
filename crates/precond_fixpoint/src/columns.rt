//! What the greatest sets of a component give for its members.

ghost use Rattle.std.specs.Prelude.{◌≡◌, ◌<◌, [], ℕ, IfOk, List, OnOk, length, replicate, slice_get, Some};
ghost use Rattle.bool_diagrams.specs.Rows.{IsDiagram, Keeps, ReadsBelow};
ghost use Rattle.bool_diagrams.specs.declared.diagram.Diagram.{Diagram as TheDiagram};
ghost use Rattle.cti_terms.specs.Listing.{IsProgram};
ghost use Rattle.cti_terms.specs.declared.predicates.PredId.{PredId as ThePred};
ghost use Rattle.number_tests.specs.Levels.{items_of};
ghost use Rattle.precond_fixpoint.specs.Solving.{AreColumns, AreMappingSets, AreUnions, FitPredicate, IsColumn};

use bool_diagrams::{Diagram, Table};
use cti_terms::{PredId, Program};
use sequences::Sequence;
use std::alloc::{AllocError, Global};
use std::mem;
use truth_rows::upward_union;

/// The given number of empty columns.
pub(crate) fn no_sets(alloc: Global, count: usize) -> Result<Vec<Sequence<Diagram>>, AllocError>
    ensures { IfOk result (λ sets. sets.items ≡ replicate count []) }
{
    let mut sets = Vec::new(alloc);
    for _q in 0..count {
        sets.push(Sequence::new(alloc))?;
    }
    Ok(sets)
}

/// Puts into the places of the members their columns, and what these allow. A column becomes what its place held.
pub(crate) fn put_members(
    p: &Program,
    table: &mut Table,
    members: &[PredId],
    columns: &mut [Sequence<Diagram>],
    sets: &mut [Sequence<Diagram>],
    allowed: &mut [Diagram],
) -> Result<(), AllocError>
    requires program { IsProgram p.now }
    requires there { (j : ℕ) (q : ThePred) → slice_get members.now j ≡ Some q
        → q.0 < length p.now.preds }
    requires each { length columns.old ≡ length members.now }
    requires fit { (j : ℕ) (q : ThePred) (own : List TheDiagram) → slice_get members.now j ≡ Some q
        → slice_get columns.old j ≡ Some own → FitPredicate p.now.preds table.old q.0 own }
    requires sets { AreMappingSets p.now.preds table.old sets.old }
    requires allowed { AreUnions p.now.preds table.old sets.old allowed.old }
    ensures keeps { Keeps table.old table.new }
    ensures sets { OnOk result (AreMappingSets p.now.preds table.new sets.new) }
    ensures allowed { OnOk result (AreUnions p.now.preds table.new sets.new allowed.new) }
    ensures own { OnOk result ((families : List (List TheDiagram))
        → AreColumns families members.now columns.old
        → (j : ℕ) (q : ThePred) → slice_get members.now j ≡ Some q
        → IsColumn families q.0 (items_of sets.new q.0)) }
    ensures others { OnOk result ((q : ℕ)
        → ((j : ℕ) (a : ThePred) → slice_get members.now j ≡ Some a → q ≡ a.0 → ⊥)
        → slice_get sets.new q ≡ slice_get sets.old q) }
{
    for (place, member) in members.iter().enumerate() {
        put_member(p, table, *member, &mut columns[place], sets, allowed)?;
    }
    Ok(())
}

/// Puts the sets of one member into their place, and joins them to what is allowed.
fn put_member(
    p: &Program,
    table: &mut Table,
    member: PredId,
    column: &mut Sequence<Diagram>,
    sets: &mut [Sequence<Diagram>],
    allowed: &mut [Diagram],
) -> Result<(), AllocError>
    requires program { IsProgram p.now }
    requires there { member.0 < length p.now.preds }
    requires fit { FitPredicate p.now.preds table.old member.0 column.old }
    requires sets { AreMappingSets p.now.preds table.old sets.old }
    requires allowed { AreUnions p.now.preds table.old sets.old allowed.old }
    ensures keeps { Keeps table.old table.new }
    ensures sets { OnOk result (AreMappingSets p.now.preds table.new sets.new) }
    ensures allowed { OnOk result (AreUnions p.now.preds table.new sets.new allowed.new) }
    ensures own { OnOk result (items_of sets.new member.0 ≡ column.old) }
    ensures others { OnOk result ((q : ℕ) → (q ≡ member.0 → ⊥)
        → slice_get sets.new q ≡ slice_get sets.old q) }
{
    let place = member.0 as usize;
    let arity = p.pred(member).arity;
    let upper = upward_union(table, column.as_slice(), arity)?;
    mem::swap(&mut sets[place], column);
    allowed[place] = upper;
    Ok(())
}
