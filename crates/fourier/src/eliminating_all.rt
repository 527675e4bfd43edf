//! Elimination of variables, one after the other.

ghost use Rattle.std.specs.Prelude.{◌≡◌, suc, ◌+◌, ◌≤◌, IfOk};
ghost use Rattle.linear_rows.specs.Plain.{plain_rows, HaveWidth};
ghost use Rattle.linear_rows.specs.Step.{columns};
ghost use Rattle.fourier.specs.Saying.{EliminatesAll};
ghost use Rattle.sparse_rows.specs.Adding.{AllFit};

use crate::fault::ElimFault;
use crate::stepping::step;
use linear_rows::Rows;
use sparse_rows::{lines_of, rows_of};
use std::alloc::Global;

/// Eliminates the given number of variables from this one on, in order: the rows left have the width of `rows`.
///
/// Blown says which step, of which 0 is the rows' own numbers, and `wide` whether a number does not fit there; else
/// more than 4,096 rows are left.
pub fn eliminate_all(alloc: Global, rows: &Rows, from: u32, count: u32) -> Result<Rows, ElimFault>
    requires columns { from + count ≤ rows.now.width }
    requires width { HaveWidth rows.now.width rows.now.list }
    ensures exact { EliminatesAll rows.now.width (columns (suc from) count)
        (plain_rows rows.now.list) result }
    ensures width { IfOk result (λ left. left.width ≡ rows.now.width) }
    ensures long { IfOk result (λ left. HaveWidth left.width left.list) }
    ensures fit { IfOk result (λ left. AllFit (plain_rows left.list)) }
{
    let mut current = lines_of(alloc, rows)?;
    if !current.fit() {
        return Err(ElimFault::Blown {
            step: 0,
            wide: true,
        });
    }
    let last = rows.width as usize;
    let first = from as usize;
    for i in 0..count as usize {
        match step(alloc, &current, first + i + 1, last, false) {
            Ok(next) => {
                current = next;
            }
            Err(fault) => return Err(fault.at(i as u32 + 1)),
        }
    }
    Ok(rows_of(alloc, &current, rows.width)?)
}
