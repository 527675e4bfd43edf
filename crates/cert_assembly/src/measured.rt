//! The parts of a certificate that size rows and sets of truth rows give.

ghost use Rattle.std.specs.Prelude.{◌≡◌, OnOk};
ghost use Rattle.call_components.specs.Partition.{AreComponents};
ghost use Rattle.cert_assembly.specs.Assembly.{HavePreconditions, HaveSets, KeepsNumbers};
ghost use Rattle.cert_assembly.specs.Sizing.{with_sizes};
ghost use Rattle.precond_fixpoint.specs.Solving.{AreLevels};
ghost use Rattle.term_size.specs.AnyNorm.{any_truth};
ghost use Rattle.truth_rows.specs.Sets.{AreSets};

use crate::copies::{copied_proofs, copied_rows};
use crate::sets::{mode_lists, spelled_list, spelled_lists};
use bool_diagrams::{Diagram, Table};
use call_components::Components;
use cert_structure::Parts;
use cti_terms::Program;
use precond_fixpoint::solve_levels;
use sequences::Sequence;
use std::alloc::{AllocError, Global};
use std::mem;
use term_size::AnyNorm;
use termination_model::{SizeRows, Sizes};

/// Puts in the size rows and their proofs. They are copied.
pub fn put_sizes(alloc: Global, sizes: &Sizes, parts: &mut Parts) -> Result<(), AllocError>
    ensures { OnOk result (parts.new ≡ with_sizes sizes.now parts.old) }
{
    parts.rows = copied_rows(alloc, &sizes.rows)?;
    parts.row_proofs = copied_proofs(alloc, sizes.proofs.as_slice())?;
    Ok(())
}

/// Puts in the size rows and their proofs. They are moved out of the others.
pub fn move_sizes(alloc: Global, sizes: &mut Sizes, parts: &mut Parts)
    ensures { parts.new ≡ with_sizes sizes.old parts.old }
{
    parts.rows = mem::replace(&mut sizes.rows, SizeRows::new(alloc));
    parts.row_proofs = mem::replace(&mut sizes.proofs, Sequence::new(alloc));
}

/// A program by its components, and the norm of its terms.
#[derive(Clone, Copy)]
pub struct Measured<'a> {
    pub p: &'a Program,
    pub comps: &'a Components,
    pub norm: AnyNorm,
}

impl Measured<'_> {
    /// Puts in the preconditions for the mappings, and the modes, above these ground rows.
    fn put_preconditions(
        &self,
        alloc: Global,
        table: &mut Table,
        grounds: &[Diagram],
        parts: &mut Parts,
    ) -> Result<(), AllocError>
        requires components { AreComponents self.now.p.now self.now.comps.now }
        requires grounds { AreSets self.now.p.now.preds table.old grounds.now }
        requires levels { AreLevels self.now.p.now self.now.comps.now parts.old.levels }
        ensures numbers { OnOk result (KeepsNumbers parts.old parts.new) }
        ensures grounds { OnOk result (parts.new.grounds ≡ parts.old.grounds) }
        ensures preconditions { OnOk result
            (HavePreconditions (any_truth self.now.norm) self.now.p.now self.now.comps.now
            table.old table.new grounds.now parts.old.levels parts.new) }
    {
        let pre = solve_levels(
            alloc,
            self.p,
            self.comps,
            &self.norm,
            table,
            grounds,
            parts.levels.as_slice(),
        )?;
        parts.preconditions = spelled_lists(alloc, self.p, table, pre.sets.as_slice())?;
        parts.modes = mode_lists(alloc, pre.modes.as_slice())?;
        Ok(())
    }

    /// Puts in the ground rows, the preconditions for the mappings, and the modes.
    pub fn put_sets(&self, alloc: Global, parts: &mut Parts) -> Result<(), AllocError>
        requires components { AreComponents self.now.p.now self.now.comps.now }
        requires levels { AreLevels self.now.p.now self.now.comps.now parts.old.levels }
        ensures numbers { OnOk result (KeepsNumbers parts.old parts.new) }
        ensures sets { OnOk result
            (HaveSets (any_truth self.now.norm) self.now.p.now self.now.comps.now parts.new) }
    {
        let mut table = Table::new(alloc)?;
        let grounds = groundness::solve(alloc, self.p, self.comps, &self.norm, &mut table)?;
        parts.grounds = spelled_list(alloc, self.p, &table, grounds.as_slice())?;
        self.put_preconditions(alloc, &mut table, grounds.as_slice(), parts)
    }
}
