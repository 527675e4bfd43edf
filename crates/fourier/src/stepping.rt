//! One step of elimination.

ghost use Rattle.std.specs.Prelude.{◌≡◌, true, false, ◌<◌, ◌≤◌, ◌+◌, ◌^◌, [], length, IfOk, OnOk};
ghost use Rattle.linear_rows.specs.Equation.{equation_from, combinations_by};
ghost use Rattle.linear_rows.specs.Blown.{step_fits};
ghost use Rattle.sparse_rows.specs.Adding.{add_rows, AllFit, OneLength};
ghost use Rattle.fourier.specs.Saying.{FitsUnless, StepSays};

use crate::column::Column;
use crate::crossing::cross_rising;
use crate::equations::{cross_equation, equation};
use crate::fault::StepFault;
use linear_rows::RowFault;
use sparse_rows::{Lines, MOST_ROWS, add_without};
use std::alloc::{AllocError, Global};

// Where this many rows rise in a column, and as many fall, a step may leave hundreds.
const MANY_ROWS: usize = 16;

/// The rows that a step leaves, which eliminates column `k`. The columns 1 to `last` are compared.
///
/// A brief step stops once its rows are too many, and then does not look for numbers that do not fit. Another one stops
/// then only if all numbers of `rows` are small, so that none that it forms can be too large.
pub fn step(
    alloc: Global,
    rows: &Lines,
    k: usize,
    last: usize,
    brief: bool,
) -> Result<Lines, StepFault>
    requires fit { AllFit rows.now }
    requires long { OneLength rows.now }
    requires k { k ≤ last }
    requires last { last < 2 ^ 32 }
    ensures { StepSays brief last k rows.now result }
{
    let mut kept = match empty_rows(alloc, rows, k, last) {
        Ok(kept) => kept,
        Err(_) => return Err(StepFault::Memory),
    };
    match add_without(alloc, &mut kept, rows, k, last) {
        Ok(()) => {}
        Err(_) => return Err(StepFault::Memory),
    }
    match combinations(alloc, &mut kept, rows, k, last, brief) {
        Ok(()) => {}
        Err(RowFault::Wide) => return Err(StepFault::Wide),
        Err(RowFault::Memory) => return Err(StepFault::Memory),
    }
    if kept.len() > MOST_ROWS {
        return Err(StepFault::Many);
    }
    Ok(kept)
}

/// The empty list of rows for a step: where many rows are combined with many, it has flags.
fn empty_rows(alloc: Global, rows: &Lines, k: usize, last: usize) -> Result<Lines, AllocError>
    ensures { IfOk result (λ kept. kept ≡ []) }
{
    if rows.len() >= 2 * MANY_ROWS && combines_many(rows, k) {
        return Lines::flagged(alloc, last);
    }
    Ok(Lines::marked(alloc, last))
}

/// Whether many rows rise in column `k`, and many fall.
fn combines_many(rows: &Lines, k: usize) -> bool
    ensures { result ≡ true → 32 ≤ length rows.now }
{
    let mut rising = 0usize;
    let mut falling = 0usize;
    for i in 0..rows.len() {
        let number = rows.get(i).entry(k);
        if number > 0 {
            rising += 1;
        } else if number < 0 {
            falling += 1;
        }
    }
    rising >= MANY_ROWS && falling >= MANY_ROWS
}

/// The kept rows with all combinations of a step.
fn combinations(
    alloc: Global,
    kept: &mut Lines,
    rows: &Lines,
    k: usize,
    last: usize,
    brief: bool,
) -> Result<(), RowFault>
    requires fit { AllFit rows.now }
    requires long { OneLength rows.now }
    requires k { k ≤ last }
    requires last { last < 2 ^ 32 }
    ensures kept { OnOk result
        (kept.new ≡ add_rows last kept.old
        (combinations_by (equation_from (last + 1) k rows.now 0 rows.now) k rows.now)) }
    ensures fits { OnOk result (FitsUnless brief kept.new (step_fits last k rows.now)) }
    ensures wide { result ≡ Err RowFault.Wide → step_fits last k rows.now ≡ false }
{
    let column = Column { k, last };
    match equation(rows, k, last + 1) {
        Some((i, j)) => cross_equation(alloc, kept, rows, i, j, column),
        None => cross_rising(alloc, kept, rows, column, brief),
    }
}
