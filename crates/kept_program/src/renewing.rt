//! What is kept of a program's sets, in a new table.

ghost use Rattle.std.specs.Prelude.{◌≡◌, IfOk};
ghost use Rattle.moved_diagrams.specs.Moved.{AreLists};
ghost use Rattle.truth_rows.specs.Sets.{AreSets};
ghost use Rattle.bool_diagrams.specs.Rows.{Keeps};
ghost use Rattle.kept_program.specs.Renewing.{AreMovedPreconditions, IsRenewed};

use crate::kept::KeptSets;
use bool_diagrams::{Diagram, Table};
use carried_preconditions::SolvedPreconditions;
use cti_terms::Program;
use moved_diagrams::{moved_lists, moved_sets};
use sequences::Sequence;
use std::alloc::{AllocError, Global};

/// A new table, with the sets of a program in it.
pub(crate) struct Renewed {
    pub(crate) table: Table,
    pub(crate) grounds: Vec<Diagram>,
    pub(crate) preconditions: SolvedPreconditions,
}

impl Drop for Renewed {
    fn drop(self) {
        let Renewed {
            table: _,
            grounds: _,
            preconditions: _,
        } = self;
    }
}

impl Renewed {
    /// The table, the ground rows, and the preconditions.
    pub(crate) fn into_parts(self) -> (Table, Vec<Diagram>, SolvedPreconditions)
        ensures { (result.0 ≡ self.table) × (result.1 ≡ self.grounds) × (result.2 ≡ self.preconditions) }
    {
        let Renewed {
            table,
            grounds,
            preconditions,
        } = self;
        (table, grounds, preconditions)
    }
}

/// Preconditions in another table.
fn renewed_preconditions(
    alloc: Global,
    p: &Program,
    table: &Table,
    old: &SolvedPreconditions,
    into: &mut Table,
) -> Result<SolvedPreconditions, AllocError>
    requires lists { AreLists p.now.preds table.now old.now.sets }
    requires allowed { AreSets p.now.preds table.now old.now.allowed }
    ensures keeps { Keeps into.old into.new }
    ensures moved { IfOk result (AreMovedPreconditions p.now.preds table.now old.now into.new) }
{
    let sets = moved_lists(alloc, p, table, old.sets.as_slice(), into)?;
    let allowed = moved_sets(alloc, p, table, old.allowed.as_slice(), into)?;
    Ok(SolvedPreconditions {
        sets,
        allowed: Sequence::from_vec(allowed),
    })
}

/// The sets of a program in a new table.
pub(crate) fn renew_sets(
    alloc: Global,
    p: &Program,
    table: &Table,
    sets: &KeptSets,
) -> Result<Renewed, AllocError>
    requires grounds { AreSets p.now.preds table.now sets.now.grounds.items }
    requires lists { AreLists p.now.preds table.now sets.now.preconditions.sets }
    requires allowed { AreSets p.now.preds table.now sets.now.preconditions.allowed }
    ensures { IfOk result (IsRenewed p.now.preds table.now sets.now) }
{
    let mut new = Table::new(alloc)?;
    let preconditions = renewed_preconditions(alloc, p, table, &sets.preconditions, &mut new)?;
    let grounds = moved_sets(alloc, p, table, &sets.grounds, &mut new)?;
    Ok(Renewed {
        table: new,
        grounds,
        preconditions,
    })
}
