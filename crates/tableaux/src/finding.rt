//! What pivots find, tested.

ghost use Rattle.std.specs.Prelude.{◌≡◌, ◌∷◌, ◌≤ℤ◌, ◌+◌, ◌<◌, ◌^◌, pos, true, length, IfOk, IfSome};
ghost use Rattle.exact128.specs.Sums.{dot};
ghost use Rattle.linear_rows.specs.Plain.{plain_row, plain_rows, HaveWidth};
ghost use Rattle.linear_rows.specs.Rows.{IsPoint};
ghost use Rattle.tableaux.specs.Finding.{Solves};

use crate::tableau::{End, Tableau};
use linear_rows::{Multipliers, Numbers, Point, Proof, Row, Rows, Solved, are_natural, proves};
use std::alloc::{AllocError, Global};

/// What pivots find of rows: a point, or multipliers that refute, if either is found and stands its test.
pub fn found(alloc: Global, rows: &Rows) -> Result<Option<Solved>, AllocError>
    requires { HaveWidth rows.now.width rows.now.list }
    ensures { IfOk result (λ o. IfSome o (Solves rows.now.width (plain_rows rows.now.list))) }
{
    let width = rows.width as usize;
    let many = rows.list.len();
    let Some(most) = most_pivots(width, many) else {
        return Ok(None);
    };
    let mut tableau = Tableau::new(alloc, rows)?;
    match tableau.run(alloc, most)? {
        End::Holding => Ok(point_of(rows, tableau.values(alloc, width)?)),
        End::Failing(row) => refuting(alloc, rows, tableau.multipliers(alloc, width, many, row)?),
        End::Open => Ok(None),
    }
}

/// The most pivots for `many` rows of a width: 8 times the sum of both, and 64 more. None where that does not fit.
pub fn most_pivots(width: usize, many: usize) -> Option<usize>
    ensures { IfSome result (λ _. width + many < 2 ^ 64) }
{
    width.checked_add(many)?.checked_mul(8)?.checked_add(64)
}

/// The point of values over the last of them, if each row holds there.
fn point_of(rows: &Rows, values: Numbers) -> Option<Solved>
    requires { HaveWidth rows.now.width rows.now.list }
    ensures { IfSome result (Solves rows.now.width (plain_rows rows.now.list)) }
{
    let width = rows.width as usize;
    let t = values.entry(width);
    let mut w = values.into_vec();
    w.truncate(width);
    if is_point(rows, t, w.as_slice()) {
        Some(Solved::Point(Point {
            t,
            w: Numbers::from_vec(w),
        }))
    } else {
        None
    }
}

/// Whether each row holds at the point `w` over `t`, as far as this is seen in numbers that fit. False shows nothing.
pub fn is_point(rows: &Rows, t: i128, w: &[i128]) -> bool
    requires { HaveWidth rows.now.width rows.now.list }
    ensures { result ≡ true → IsPoint rows.now.width (plain_rows rows.now.list) t w.now }
{
    if t < 1 || w.len() != rows.width as usize || !are_natural(w) {
        return false;
    }
    for i in 0..rows.list.len() {
        if !holds_at(rows.list.get(i), t, w) {
            return false;
        }
    }
    true
}

/// Whether the value of a row is at least 0 and formed in numbers that fit.
fn holds_at(row: &Row, t: i128, w: &[i128]) -> bool
    requires { length w.now ≡ length row.now.coeffs }
    ensures { result ≡ true → pos 0 ≤ℤ dot (plain_row row.now) (t ∷ w.now) }
{
    match row.value_at(t, w) {
        Some(value) => value >= 0,
        None => false,
    }
}

/// The multipliers as a refutation, if `proves` says so.
fn refuting(alloc: Global, rows: &Rows, list: Numbers) -> Result<Option<Solved>, AllocError>
    requires { HaveWidth rows.now.width rows.now.list }
    ensures { IfOk result (λ o. IfSome o (Solves rows.now.width (plain_rows rows.now.list))) }
{
    if list.len() != rows.list.len() || !are_natural(list.as_slice()) {
        return Ok(None);
    }
    let bottom = Row::bottom(alloc, rows.width)?;
    match proves(rows, list.as_slice(), &bottom, 0) {
        Proof::Holds => Ok(Some(Solved::Refuted(Multipliers { scale: 0, list }))),
        Proof::Fails => Ok(None),
        Proof::Wide => Ok(None),
    }
}
