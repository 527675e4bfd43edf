//! Elimination of one variable.

ghost use Rattle.std.specs.Prelude.{◌≡◌, ℕ, ℤ, pos, List, ◌<◌, ◌+◌, IfOk, All, ◌↔◌};
ghost use Rattle.exact128.specs.Sums.{entry};
ghost use Rattle.linear_rows.specs.Plain.{plain_row, plain_rows, HaveWidth};
ghost use Rattle.linear_rows.specs.Rows.{HoldsOn};
ghost use Rattle.linear_rows.specs.Step.{HasFloor};
ghost use Rattle.fourier.specs.Saying.{Eliminates};

use crate::fault::ElimFault;
use crate::stepping::step;
use linear_rows::Rows;
use sparse_rows::{lines_of, rows_of};
use std::alloc::Global;

/// Eliminates a variable: the rows left have the width of `rows`, and 0 in the column of `var`.
///
/// Variables count from 0, and the constant is not a variable. Blown says which step, of which 0 is the rows' own
/// numbers and 1 the elimination, and `wide` whether a number does not fit there; else more than 4,096 rows are left.
///
/// Source: Fourier-Motzkin elimination, as in Schrijver 1986. Which rows are combined, divided and dropped, and in
/// what order, is defined in linear_rows.
pub fn eliminate(alloc: Global, rows: &Rows, var: u32) -> Result<Rows, ElimFault>
    requires column { var < rows.now.width }
    requires width { HaveWidth rows.now.width rows.now.list }

    // Exactly the rows of that definition, or exactly its fault, unless memory runs out.
    ensures exact { Eliminates rows.now.width (var + 1) (plain_rows rows.now.list) result }
    ensures width { IfOk result (λ left. left.width ≡ rows.now.width) }
    ensures long { IfOk result (λ left. HaveWidth left.width left.list) }
    ensures vanishes { IfOk result
        (λ left. All (λ row. entry row (var + 1) ≡ pos 0) (plain_rows left.list)) }

    // What it is for: no point is lost, and none is gained where some row keeps the variable at 0 or above.
    ensures sound { IfOk result
        (λ left. All (λ row. HoldsOn (rows.now.width + 1) (plain_rows rows.now.list) row)
        (plain_rows left.list)) }
    ensures complete { IfOk result
        (λ left. HasFloor rows.now.width (var + 1) (plain_rows rows.now.list) → (row : List ℤ)
        → entry row (var + 1) ≡ pos 0
        → (HoldsOn (rows.now.width + 1) (plain_rows left.list) row
        ↔ HoldsOn (rows.now.width + 1) (plain_rows rows.now.list) row)) }
{
    let lines = lines_of(alloc, rows)?;
    if !lines.fit() {
        return Err(ElimFault::Blown {
            step: 0,
            wide: true,
        });
    }
    let last = rows.width as usize;
    match step(alloc, &lines, var as usize + 1, last, false) {
        Ok(left) => Ok(rows_of(alloc, &left, rows.width)?),
        Err(fault) => Err(fault.at(1)),
    }
}
