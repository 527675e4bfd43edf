//! Combinations of two rows in which a column vanishes.

ghost use Rattle.std.specs.Prelude.{◌≡◌, ◌&&◌, ◌||◌, nat_lt, true, false, pos, ◌≤ℤ◌, ◌<ℤ◌, length, map, IfOk, OnOk};
ghost use Rattle.exact128.specs.Fits.{Fits};
ghost use Rattle.exact128.specs.Sums.{entry};
ghost use Rattle.linear_rows.specs.Elimination.{crossed, crossings, falling, is_negative};
ghost use Rattle.linear_rows.specs.Blown.{crossed_fits, crossings_fit, all_of};
ghost use Rattle.sparse_rows.specs.Adding.{add_row, add_rows, AllFit, AllLong, OneLength};
ghost use Rattle.fourier.specs.Saying.{FitsUnless};
ghost use Rattle.sparse_rows.specs.Small.{small};

use crate::column::Column;
use exact128::{gcd, quotient};
use linear_rows::RowFault;
use sparse_rows::{Line, Lines, MOST_ROWS, add, is_negative, is_positive, negated};
use std::alloc::{AllocError, Global};

/// The kept rows with the combinations of each row that rises in the column and each that falls there.
///
/// It stops where the kept rows are too many, since then no more are kept, if it is brief or no number can be too
/// large.
pub fn cross_rising(
    alloc: Global,
    kept: &mut Lines,
    rows: &Lines,
    column: Column,
    brief: bool,
) -> Result<(), RowFault>
    requires fit { AllFit rows.now }
    requires long { OneLength rows.now }
    ensures kept { OnOk result
        (kept.new ≡ add_rows column.last kept.old (crossings column.k rows.now)) }
    ensures fits { OnOk result (FitsUnless brief kept.new (crossings_fit column.k rows.now)) }
    ensures wide { result ≡ Err RowFault.Wide → crossings_fit column.k rows.now ≡ false }
{
    let stops = may_stop(brief, rows);
    let falls = falling_flags(alloc, rows, column.k)?;
    for i in 0..rows.len() {
        if is_crowded(stops, kept) {
            return Ok(());
        }
        if is_positive(rows.get(i).entry(column.k)) {
            cross_falling(alloc, kept, rows.get(i), rows, falls.as_slice(), column)?;
        }
    }
    Ok(())
}

/// Of each row, whether it falls in column `k`.
fn falling_flags(alloc: Global, rows: &Lines, k: usize) -> Result<Vec<bool>, AllocError>
    ensures { IfOk result (λ falls. falls.items ≡ map (λ s. is_negative (entry s k)) rows.now) }
{
    let mut falls = Vec::with_capacity(alloc, rows.len())?;
    for i in 0..rows.len() {
        falls.push(is_negative(rows.get(i).entry(k)))?;
    }
    Ok(falls)
}

/// Whether a step may stop once too many rows are kept: it is brief, or no number that it forms can be too large.
fn may_stop(brief: bool, rows: &Lines) -> bool
    ensures { result ≡ (brief || all_of (all_of small) rows.now) }
{
    brief || rows.are_small()
}

/// Whether a step that may stop need not go on.
fn is_crowded(stops: bool, kept: &Lines) -> bool
    ensures { result ≡ (stops && nat_lt 4096 (length kept.now)) }
{
    stops && kept.len() > MOST_ROWS
}

/// The kept rows with the combinations of `r` and the rows that fall in the column.
fn cross_falling(
    alloc: Global,
    kept: &mut Lines,
    r: &Line,
    rows: &Lines,
    falls: &[bool],
    column: Column,
) -> Result<(), RowFault>
    requires fit { AllFit rows.now }
    requires long { AllLong (length r.now) rows.now }
    requires rises { pos 1 ≤ℤ entry r.now column.k }
    requires falls { falls.now ≡ map (λ s. is_negative (entry s column.k)) rows.now }
    ensures kept { OnOk result
        (kept.new ≡ add_rows column.last kept.old
        (map (λ s. crossed column.k r.now s) (falling column.k rows.now))) }
    ensures fits { OnOk result (all_of (crossed_fits column.k r.now) (falling column.k rows.now)
        ≡ true) }
    ensures wide { result ≡ Err RowFault.Wide
        → all_of (crossed_fits column.k r.now) (falling column.k rows.now) ≡ false }
{
    for j in 0..falls.len() {
        if falls[j] {
            cross_add(alloc, kept, r, rows.get(j), column)?;
        }
    }
    Ok(())
}

/// The kept rows with the combination of `r` and `s`.
pub fn cross_add(
    alloc: Global,
    kept: &mut Lines,
    r: &Line,
    s: &Line,
    column: Column,
) -> Result<(), RowFault>
    requires long { length r.now ≡ length s.now }
    requires rises { pos 1 ≤ℤ entry r.now column.k }
    requires falls { entry s.now column.k <ℤ pos 0 }
    requires fits { Fits (entry s.now column.k) }
    ensures kept { OnOk result
        (kept.new ≡ add_row column.last kept.old (crossed column.k r.now s.now)) }
    ensures fits { OnOk result (crossed_fits column.k r.now s.now ≡ true) }
    ensures wide { result ≡ Err RowFault.Wide → crossed_fits column.k r.now s.now ≡ false }
{
    let row = cross(alloc, r, s, column.k)?;
    add(alloc, kept, row, column.last)?;
    Ok(())
}

/// The sum of `r`, which rises in column `k`, and of `s`, which falls there, in which it vanishes.
fn cross(alloc: Global, r: &Line, s: &Line, k: usize) -> Result<Line, RowFault>
    requires long { length r.now ≡ length s.now }
    requires rises { pos 1 ≤ℤ entry r.now k }
    requires falls { entry s.now k <ℤ pos 0 }
    requires fits { Fits (entry s.now k) }
    ensures row { IfOk result (λ q. q ≡ crossed k r.now s.now) }
    ensures fits { IfOk result (λ _. crossed_fits k r.now s.now ≡ true) }
    ensures wide { result ≡ Err RowFault.Wide → crossed_fits k r.now s.now ≡ false }
{
    let up = r.entry(k);
    let down = negated(s.entry(k));
    let shared = gcd(up.unsigned_abs(), down.unsigned_abs());
    Line::blend(alloc, quotient(down, shared), quotient(up, shared), r, s)
}
