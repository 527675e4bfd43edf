//! Solving of rows over naturals.

ghost use Rattle.std.specs.Prelude.{IfOk};
ghost use Rattle.linear_rows.specs.Plain.{plain_rows, HaveWidth};
ghost use Rattle.linear_rows.specs.Solving.{solution};
ghost use Rattle.linear_rows.specs.Decides.{Decides, RefutesInFit};
ghost use Rattle.simplex.specs.Solving.{IsBlownAs};

use fourier::ElimFault;
use linear_rows::{Rows, Solved};
use std::alloc::Global;
use tableaux::found;

/// Finds a point at which all rows hold, or multipliers that show that they hold nowhere.
///
/// All variables are at least 0, and t at least 1. Blown comes only where elimination is blown: it names the step and
/// says whether a number was too large there, as fourier's call does.
pub fn solve(alloc: Global, rows: &Rows) -> Result<Solved, ElimFault>
    requires { HaveWidth rows.now.width rows.now.list }

    // A point is one of the rows, and multipliers refute them.
    ensures decides { IfOk result (Decides rows.now.width (plain_rows rows.now.list)) }

    // For multipliers `proves` of the row of constant -1 and coefficients 0 answers Holds.
    ensures proved { IfOk result (RefutesInFit rows.now.width (plain_rows rows.now.list)) }

    // A blown answer is that of elimination.
    ensures blown { IsBlownAs (solution rows.now.width (plain_rows rows.now.list)) result }
{
    match found(alloc, rows)? {
        Some(solved) => Ok(solved),
        None => fourier::solve(alloc, rows),
    }
}
