//! Elimination by an equation, a row that stands among the rows with its negation.

ghost use Rattle.std.specs.Prelude.{◌≡◌, true, false, pos, ◌≤ℤ◌, ◌<ℤ◌, ◌<◌, length, OnOk, slice_index_or, [], not, nat_eq, ◌||◌};
ghost use Rattle.exact128.specs.Fits.{Fits};
ghost use Rattle.exact128.specs.Sums.{entry};
ghost use Rattle.linear_rows.specs.Equation.{equation_from, solved_rows};
ghost use Rattle.linear_rows.specs.Blown.{solved_rows_fit};
ghost use Rattle.sparse_rows.specs.Adding.{add_rows, AllFit, OneLength};
ghost use Rattle.fourier.specs.SolvedRows.{add_solved, add_solved_fits};

use crate::column::Column;
use crate::crossing::cross_add;
use linear_rows::RowFault;
use sparse_rows::{Line, Lines, is_negative, is_positive};
use std::alloc::Global;

/// The places of the first row that rises in column `k` and has its negation among the rows, and of that.
pub fn equation(rows: &Lines, k: usize, many: usize) -> Option<(usize, usize)>
    requires { AllFit rows.now }
    ensures { result ≡ equation_from many k rows.now 0 rows.now }
{
    for i in 0..rows.len() {
        if is_positive(rows.get(i).entry(k)) {
            let j = rows.negation_of(i, many);
            if j < rows.len() {
                return Some((i, j));
            }
        }
    }
    None
}

/// The kept rows with the other rows in which the variable stands, each crossed with the equation at the places `i` and
/// `j`.
pub fn cross_equation(
    alloc: Global,
    kept: &mut Lines,
    rows: &Lines,
    i: usize,
    j: usize,
    column: Column,
) -> Result<(), RowFault>
    requires fit { AllFit rows.now }
    requires long { OneLength rows.now }
    requires i { i < length rows.now }
    requires j { j < length rows.now }
    requires rises { pos 1 ≤ℤ entry (slice_index_or rows.now i []) column.k }
    requires falls { entry (slice_index_or rows.now j []) column.k <ℤ pos 0 }
    ensures kept { OnOk result
        (kept.new ≡ add_rows column.last kept.old (solved_rows column.k i j rows.now)) }
    ensures fits { OnOk result (solved_rows_fit column.k i j rows.now ≡ true) }
    ensures wide { result ≡ Err RowFault.Wide → solved_rows_fit column.k i j rows.now ≡ false }
{
    for p in 0..rows.len() {
        if elsewhere(p, i, j) {
            cross_solved(alloc, kept, rows.get(i), rows.get(j), rows.get(p), column)?;
        }
    }
    Ok(())
}

/// Whether `p` is neither of two places.
fn elsewhere(p: usize, i: usize, j: usize) -> bool
    ensures { result ≡ not (nat_eq p i || nat_eq p j) }
{
    p != i && p != j
}

/// The kept rows with `q`, crossed with the equation of `r` and `s` where the variable stands in it.
fn cross_solved(
    alloc: Global,
    kept: &mut Lines,
    r: &Line,
    s: &Line,
    q: &Line,
    column: Column,
) -> Result<(), RowFault>
    requires long_r { length r.now ≡ length q.now }
    requires long_s { length q.now ≡ length s.now }
    requires rises { pos 1 ≤ℤ entry r.now column.k }
    requires falls { entry s.now column.k <ℤ pos 0 }
    requires fits { Fits (entry s.now column.k) }
    requires fits_q { Fits (entry q.now column.k) }
    ensures kept { OnOk result
        (kept.new ≡ add_solved column.last column.k r.now s.now kept.old q.now) }
    ensures fits { OnOk result (add_solved_fits column.k r.now s.now q.now ≡ true) }
    ensures wide { result ≡ Err RowFault.Wide → add_solved_fits column.k r.now s.now q.now ≡ false }
{
    if is_negative(q.entry(column.k)) {
        return cross_add(alloc, kept, r, q, column);
    }
    if is_positive(q.entry(column.k)) {
        return cross_add(alloc, kept, q, s, column);
    }
    Ok(())
}
