//! Solving by pivots first, or by elimination alone.

ghost use Rattle.std.specs.Prelude.{◌≡◌, IfOk, false};
ghost use Rattle.fourier.specs.Solves.{Spells};
ghost use Rattle.linear_rows.specs.Decides.{Decides};
ghost use Rattle.linear_rows.specs.Plain.{HaveWidth, plain_rows};
ghost use Rattle.linear_rows.specs.Solving.{solution};
ghost use Rattle.simplex.specs.Solving.{IsBlownAs};

use fourier::ElimFault;
use linear_rows::{Rows, Solved};
use std::alloc::Global;

/// Solves by pivots, and by elimination where these find nothing, or by elimination alone.
pub(crate) fn solve_by(alloc: Global, rows: &Rows, by_pivots: bool) -> Result<Solved, ElimFault>
    requires { HaveWidth rows.now.width rows.now.list }
    ensures decides { IfOk result (Decides rows.now.width (plain_rows rows.now.list)) }
    ensures blown { IsBlownAs (solution rows.now.width (plain_rows rows.now.list)) result }
    ensures exact { by_pivots ≡ false
        → Spells (solution rows.now.width (plain_rows rows.now.list)) result }
{
    if by_pivots {
        return simplex::solve(alloc, rows);
    }
    fourier::solve(alloc, rows)
}
