//! Rows that are kept: divided by what their numbers share, none that says nothing, and one for each list of
//! coefficients.

ghost use Rattle.std.specs.Prelude.{◌≡◌, OnOk, All};
ghost use Rattle.exact128.specs.Fits.{Fits};
ghost use Rattle.linear_rows.specs.Elimination.{without};
ghost use Rattle.linear_rows.specs.Cleaning.{is_trivial, insert_row};
ghost use Rattle.sparse_rows.specs.Adding.{insert_divided, add_row, add_rows, AllFit};

use crate::line::Line;
use crate::lines::Lines;
use crate::sign::{at_most, is_zero};
use std::alloc::{AllocError, Global};

/// The most rows that a step of elimination may leave.
pub const MOST_ROWS: usize = 4096;

/// Adds to the kept rows those that have 0 in column `k`. The constant is column 0, and the coefficients are the
/// columns 1 to `last`.
pub fn add_without(
    alloc: Global,
    kept: &mut Lines,
    rows: &Lines,
    k: usize,
    last: usize,
) -> Result<(), AllocError>
    requires { AllFit rows.now }
    ensures { OnOk result (kept.new ≡ add_rows last kept.old (without k rows.now)) }
{
    for i in 0..rows.len() {
        if is_zero(rows.get(i).entry(k)) {
            let row = rows.get(i).copy(alloc)?;
            add(alloc, kept, row, last)?;
        }
    }
    Ok(())
}

/// Adds a row to the kept ones, divided first. Nothing is added once more than [`MOST_ROWS`] rows are kept. The
/// coefficients are the columns 1 to `last`.
pub fn add(alloc: Global, kept: &mut Lines, row: Line, last: usize) -> Result<(), AllocError>
    requires { All Fits row }
    ensures { OnOk result (kept.new ≡ add_row last kept.old row) }
{
    if kept.len() > MOST_ROWS {
        return Ok(());
    }
    let shared = row.shared();
    if shared == 0 {
        return Ok(());
    }
    if shared == 1 {
        return add_divided(kept, row, last);
    }
    let divided = row.divided_by(alloc, shared)?;
    add_divided(kept, divided, last)
}

/// The kept rows with one more, which is divided.
fn add_divided(kept: &mut Lines, row: Line, last: usize) -> Result<(), AllocError>
    ensures { OnOk result (kept.new ≡ insert_divided last kept.old row) }
{
    if is_trivial(&row, last) {
        return Ok(());
    }
    insert(kept, row, last)
}

/// The kept rows with one more. Of rows with the same coefficients the one with the least constant stays.
fn insert(kept: &mut Lines, row: Line, last: usize) -> Result<(), AllocError>
    ensures { OnOk result (kept.new ≡ insert_row last kept.old row) }
{
    let place = kept.place_of(&row, last);
    if place < kept.len() {
        if at_most(kept.get(place).entry(0), row.entry(0)) {
            return Ok(());
        }
        kept.remove(place);
    }
    kept.push(row)
}

/// Whether a row has no coefficient and a constant of at least 0.
fn is_trivial(row: &Line, last: usize) -> bool
    ensures { result ≡ is_trivial last row.now }
{
    for j in 0..last {
        if !is_zero(row.entry(j + 1)) {
            return false;
        }
    }
    at_most(0, row.entry(0))
}
