//! The last checks of a solving: whether their numbers fit.

ghost use Rattle.std.specs.Prelude.{◌≡◌, pos, length, ◌∷◌, drop, IfOk, ◌*ℤ◌, ◌+ℤ◌, SomeIff};
ghost use Rattle.exact128.specs.Fits.{Fits};
ghost use Rattle.linear_rows.specs.Plain.{plain_row, plain_rows, HaveWidth};
ghost use Rattle.linear_rows.specs.Solving.{sums_fit, point_fits};

use exact128::{plus, times};
use linear_rows::{Numbers, Row, Rows};
use sparse_rows::Line;
use std::alloc::{AllocError, Global};

/// Whether the value of each row at a point is formed in numbers that fit.
pub fn point_fits(rows: &Rows, t: i128, w: &[i128]) -> bool
    requires width { HaveWidth rows.now.width rows.now.list }
    requires long { length w.now ≡ rows.now.width }
    ensures { result ≡ point_fits (plain_rows rows.now.list) t w.now }
{
    for i in 0..rows.list.len() {
        if !value_fits(rows.list.get(i), t, w) {
            return false;
        }
    }
    true
}

/// Whether the value of a row at a point is formed in numbers that fit: the constant's product first.
fn value_fits(row: &Row, t: i128, w: &[i128]) -> bool
    requires { length w.now ≡ length row.now.coeffs }
    ensures { result ≡ sums_fit (pos 0) (plain_row row.now) (t ∷ w.now) }
{
    let Some(mut sum) = plus_product(0, row.constant, t) else {
        return false;
    };
    for k in 0..w.len() {
        match plus_product(sum, row.coeffs.entry(k), w[k]) {
            Some(next) => sum = next,
            None => return false,
        }
    }
    true
}

/// A sum with one more product, where both fit.
fn plus_product(sum: i128, a: i128, b: i128) -> Option<i128>
    ensures { SomeIff result (Fits (a *ℤ b) × Fits (sum +ℤ a *ℤ b)) (sum +ℤ a *ℤ b) }
{
    match times(a, b) {
        Some(product) => plus(sum, product),
        None => None,
    }
}

/// The multipliers that a row carries, which stand from a place on.
pub fn carried(alloc: Global, line: &Line, from: usize) -> Result<Numbers, AllocError>
    ensures { IfOk result (λ numbers. numbers ≡ drop from line.now) }
{
    let mut numbers = Numbers::new(alloc);
    for k in from..line.len() {
        numbers.push(line.entry(k))?;
    }
    Ok(numbers)
}
