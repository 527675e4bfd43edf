//! Bounds of a variable from below, and its value: the greatest of them and of 0.

ghost use Rattle.std.specs.Prelude.{◌≡◌, ℕ, pos, ◌≤ℤ◌, ◌+◌, ◌<◌, ◌≤◌, ◌^◌, length, map, All, drop, [], ◌∷◌};
ghost use Rattle.exact128.specs.Fits.{Fits};
ghost use Rattle.exact128.specs.Sums.{entry};
ghost use Rattle.exact128.specs.Fractions.{whole, exceeds};
ghost use Rattle.rational128.specs.Formulas.{fraction_of, Gives};
ghost use Rattle.linear_rows.specs.Elimination.{rising};
ghost use Rattle.linear_rows.specs.Solving.{sum_on, negated, bound, greatest};
ghost use Rattle.sparse_rows.specs.Adding.{AllFit};
ghost use Rattle.fourier.specs.Exceeding.{Tells};

use rational128::{Ratio, Wide};
use sparse_rows::{Line, Lines, is_positive};
use std::alloc::Global;
use std::collections::VecDeque;

/// The value of a column, where the columns after it have these values.
pub fn greatest(rows: &Lines, k: usize, values: &VecDeque<Ratio, Global>) -> Result<Ratio, Wide>
    requires fit { AllFit rows.now }
    requires long { All (λ row. k + 1 + length values.now.items ≤ length row) rows.now }
    requires small { k + 1 + length values.now.items < 2 ^ 33 }
    ensures { Gives (greatest k (map fraction_of values.now.items) (whole (pos 0))
        (rising k rows.now)) result }
{
    let mut best = integer(0);
    for i in 0..rows.len() {
        if is_positive(rows.get(i).entry(k)) {
            best = greater(best, rows.get(i), k, values)?;
        }
    }
    Ok(best)
}

/// The greater of a value and of a row's bound.
fn greater(
    best: Ratio,
    row: &Line,
    k: usize,
    values: &VecDeque<Ratio, Global>,
) -> Result<Ratio, Wide>
    requires fit { All Fits row.now }
    requires long { k + 1 + length values.now.items ≤ length row.now }
    requires small { k + 1 + length values.now.items < 2 ^ 33 }
    requires rises { pos 1 ≤ℤ entry row.now k }
    ensures { Gives (greatest k (map fraction_of values.now.items) (fraction_of best)
        (row.now ∷ [])) result }
{
    let value = bound(row, k, values)?;
    if exceeds(value, best)? {
        Ok(value)
    } else {
        Ok(best)
    }
}

/// Whether one fraction is greater than another.
fn exceeds(x: Ratio, y: Ratio) -> Result<bool, Wide>
    ensures { Tells (exceeds (fraction_of x) (fraction_of y)) result }
{
    Ok(x.cmp(y)?.is_gt())
}

/// What a row that rises in a column says that its variable is at least.
fn bound(row: &Line, k: usize, values: &VecDeque<Ratio, Global>) -> Result<Ratio, Wide>
    requires fit { All Fits row.now }
    requires long { k + 1 + length values.now.items ≤ length row.now }
    requires small { k + 1 + length values.now.items < 2 ^ 33 }
    requires rises { pos 1 ≤ℤ entry row.now k }
    ensures { Gives (bound k (map fraction_of values.now.items) row.now) result }
{
    let sum = sum_on(integer(row.entry(0)), row, k + 1, values)?;
    negated(sum).div(integer(row.entry(k)))
}

/// The sum of products of a row's numbers, from a place on, with values, on top of another sum.
fn sum_on(
    start: Ratio,
    row: &Line,
    from: usize,
    values: &VecDeque<Ratio, Global>,
) -> Result<Ratio, Wide>
    requires fit { All Fits row.now }
    requires long { from + length values.now.items ≤ length row.now }
    requires small { from + length values.now.items < 2 ^ 33 }
    ensures { Gives (sum_on (fraction_of start) (drop from row.now)
        (map fraction_of values.now.items)) result }
{
    let mut sum = start;
    for j in 0..values.len() {
        sum = plus_product(sum, row.entry(from + j), values[j])?;
    }
    Ok(sum)
}

/// A sum with one more product.
fn plus_product(sum: Ratio, number: i128, value: Ratio) -> Result<Ratio, Wide>
    requires { Fits number }
    ensures { Gives (sum_on (fraction_of sum) (number ∷ []) (fraction_of value ∷ [])) result }
{
    sum.add(integer(number).mul(value)?)
}

/// A whole number as a fraction.
fn integer(number: i128) -> Ratio
    requires { Fits number }
    ensures { fraction_of result ≡ whole number }
{
    Ratio {
        num: number,
        den: 1,
    }
}

/// The fraction with the other sign.
fn negated(value: Ratio) -> Ratio
    ensures { fraction_of result ≡ negated (fraction_of value) }
{
    Ratio {
        num: -value.num,
        den: value.den,
    }
}
