//! The greatest sets of a component for one mapping.

ghost use Rattle.std.specs.Prelude.{◌≡◌, ◌<◌, OnOk, length};
ghost use Rattle.bool_diagrams.specs.Rows.{Keeps};
ghost use Rattle.precond_fixpoint.specs.Setting.{IsComponent, IsSetting, rows_of};
ghost use Rattle.precond_fixpoint.specs.Solving.{IsSolution};
ghost use Rattle.truth_rows.specs.Sets.{AreSets};

use crate::covering::put_covering;
use crate::removing::shrink;
use crate::setting::{Component, Setting};
use bool_diagrams::{Diagram, Table};
use groundness::Marks;
use std::alloc::AllocError;
use term_size::Norm;

/// Puts into the places of a component's members their greatest sets for the mapping of this number. The places of
/// other predicates stay.
pub(crate) fn greatest_sets<N: Norm>(
    setting: &Setting<N>,
    component: &Component,
    table: &mut Table,
    marks: &mut Marks,
    m: usize,
    sets: &mut [Diagram],
) -> Result<(), AllocError>
    requires setting { IsSetting setting.now table.old }
    requires component { IsComponent setting.now component.now table.old }
    requires marks { length marks.old ≡ length setting.now.program.now.clauses }
    requires mapping { m < component.now.mappings }
    requires sets { AreSets setting.now.program.now.preds table.old sets.old }
    ensures keeps { Keeps table.old table.new }
    ensures marks { OnOk result (length marks.new ≡ length setting.now.program.now.clauses) }
    ensures solution { OnOk result
        (IsSolution
        (N.truth setting.now.norm.now) setting.now.program.now setting.now.ranks.now component.now.rank
        (rows_of setting.now table.old component.now.allowed.now)
        (rows_of setting.now table.old setting.now.grounds.now) setting.now.levels.now table.new m sets.new) }
{
    put_covering(
        setting.program,
        table,
        component.members,
        setting.levels,
        m,
        sets,
    )?;
    shrink(setting, component, table, marks, sets)?;
    Ok(())
}
