//! The greatest sets of a component's members, for each of its mappings.

ghost use Rattle.std.specs.Prelude.{◌≡◌, ◌<◌, ◌++◌, ◌∷◌, [], ℕ, true, IfOk, List, OnOk, length, slice_get, slice_index_or, slice_set, Some};
ghost use Rattle.bool_diagrams.specs.Rows.{Keeps};
ghost use Rattle.bool_diagrams.specs.declared.diagram.Diagram.{Diagram as TheDiagram};
ghost use Rattle.cti_terms.specs.declared.predicates.PredId.{PredId as ThePred};
ghost use Rattle.precond_fixpoint.specs.Setting.{IsComponent, IsSetting, rows_of};
ghost use Rattle.precond_fixpoint.specs.Solving.{AreColumns, AreSolutions};
ghost use Rattle.truth_rows.specs.Sets.{AreSets};

use crate::columns::no_sets;
use crate::greatest::greatest_sets;
use crate::setting::{Component, Setting};
use bool_diagrams::{Diagram, Table};
use cti_terms::PredId;
use groundness::Marks;
use sequences::Sequence;
use std::alloc::{AllocError, Global};
use term_size::Norm;

/// Gives for each member of a component its greatest sets for each of its mappings.
///
/// `sets` has a set for each predicate; those of the members are made anew for each mapping.
pub(crate) fn member_sets<N: Norm>(
    alloc: Global,
    setting: &Setting<N>,
    component: &Component,
    table: &mut Table,
    marks: &mut Marks,
    sets: &mut [Diagram],
) -> Result<Vec<Sequence<Diagram>>, AllocError>
    requires setting { IsSetting setting.now table.old }
    requires component { IsComponent setting.now component.now table.old }
    requires marks { length marks.old ≡ length setting.now.program.now.clauses }
    requires sets { AreSets setting.now.program.now.preds table.old sets.old }
    ensures keeps { Keeps table.old table.new }
    ensures marks { OnOk result (length marks.new ≡ length setting.now.program.now.clauses) }
    ensures sets { OnOk result (AreSets setting.now.program.now.preds table.new sets.new) }
    ensures each { IfOk result
        (λ columns. length columns.items ≡ length component.now.members.now) }
    ensures solutions { IfOk result (λ columns.
        AreSolutions
        (N.truth setting.now.norm.now) setting.now.program.now setting.now.ranks.now component.now.rank
        (rows_of setting.now table.old component.now.allowed.now)
        (rows_of setting.now table.old setting.now.grounds.now) setting.now.levels.now table.new
        component.now.mappings component.now.members.now columns.items) }
{
    let mut columns = no_sets(alloc, component.members.len())?;
    for m in 0..component.mappings {
        greatest_sets(setting, component, table, marks, m, sets)?;
        push_sets(component.members, sets, &mut columns)?;
    }
    Ok(columns)
}

/// Adds the set of each member to its column.
fn push_sets(
    members: &[PredId],
    sets: &[Diagram],
    columns: &mut [Sequence<Diagram>],
) -> Result<(), AllocError>
    requires there { (j : ℕ) (a : ThePred) → slice_get members.now j ≡ Some a
        → a.0 < length sets.now }
    requires each { length columns.old ≡ length members.now }
    ensures each { length columns.new ≡ length columns.old }
    ensures pushed { OnOk result ((families : List (List TheDiagram))
        → AreColumns families members.now columns.old
        → AreColumns (families ++ sets.now ∷ []) members.now columns.new) }
{
    for (place, member) in members.iter().enumerate() {
        push_at(columns, place, sets[member.0 as usize])?;
    }
    Ok(())
}

/// Adds a set to the column of this number.
fn push_at(columns: &mut [Sequence<Diagram>], place: usize, set: Diagram) -> Result<(), AllocError>
    requires { place < length columns.old }
    ensures each { length columns.new ≡ length columns.old }
    ensures pushed { OnOk result
        (columns.new ≡ slice_set columns.old place
        (slice_index_or columns.old place [] ++ set ∷ [])) }
{
    let column = &mut columns[place];
    column.push(set)?;
    Ok(())
}
