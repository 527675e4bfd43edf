//! Tests of rows over a head's arguments on a clause's system.

ghost use Rattle.std.specs.Prelude.{◌≡◌, ◌≤ℤ◌, ◌∷◌, pos, IfOk, IfSome, length, true};
ghost use Rattle.exact128.specs.Sums.{dot};
ghost use Rattle.linear_rows.specs.Plain.{plain_row, plain_rows, HaveWidth};
ghost use Rattle.linear_rows.specs.Rows.{IsPoint};
ghost use Rattle.polyhedra.specs.Making.{arity_of};
ghost use Rattle.polyhedra.specs.Remembering.{IsPointOf, IsFailing, HasNegative};
ghost use Rattle.polyhedra.specs.Telling.{TellsHead, IsSystem, at_head, IsTarget};
ghost use Rattle.linear_rows.specs.Showing.{FailsAt};

use exact128::{plus, sum_of_products, times};
use linear_rows::{Point, Row, System};
use redundant_rows::tested;
use simplex::Held;
use std::alloc::{AllocError, Global};
use termination_model::{columns, replaced};

/// Tests a row over the head's arguments on a clause's system, first at a point of the system that is remembered.
pub(crate) fn tested_on(
    alloc: Global,
    system: &System,
    last: &Option<Point>,
    row: &Row,
) -> Result<Held, AllocError>
    requires system { IsSystem system.now }
    requires arity { length row.now.coeffs ≡ arity_of system.now }
    requires last { IsPointOf system.now last.now }
    ensures { IfOk result (TellsHead system.now (plain_row row.now)) }
{
    if system.wide {
        return Ok(Held::Blown);
    }
    let Some(target) = target_of(alloc, system, row)? else {
        return Ok(Held::Blown);
    };
    match failing(alloc, last, &target)? {
        Some(point) => Ok(Held::No(point)),
        None => tested(alloc, &system.rows, &target),
    }
}

/// A row over the head's arguments with their size expressions in their places, where it fits.
fn target_of(alloc: Global, system: &System, row: &Row) -> Result<Option<Row>, AllocError>
    requires system { IsSystem system.now }
    requires arity { length row.now.coeffs ≡ arity_of system.now }
    ensures { IfOk result (IsTarget (at_head system.now (plain_row row.now))) }
{
    let mut numbers = Vec::new(alloc);
    numbers.push(row.constant)?;
    numbers.extend_from_slice(row.coeffs.as_slice())?;
    let columns = columns(alloc, &system.head)?;
    replaced(alloc, numbers.as_slice(), columns.as_slice())
}

/// A copy of a remembered point, if a row fails there.
fn failing(alloc: Global, last: &Option<Point>, row: &Row) -> Result<Option<Point>, AllocError>
    ensures { IfOk result (λ o. IfSome o (IsFailing last.now (plain_row row.now))) }
{
    match last {
        Some(point) => {
            if !is_below(row, point) {
                return Ok(None);
            }
            let w = point.w.copy(alloc)?;
            Ok(Some(Point { t: point.t, w }))
        }
        None => Ok(None),
    }
}

/// Whether a row's value at a point is below 0, by numbers that fit.
fn is_below(row: &Row, point: &Point) -> bool
    ensures { result ≡ true → pos 0 ≤ℤ dot (plain_row row.now) (point.now.t ∷ point.now.w) → ⊥ }
{
    if row.coeffs.len() != point.w.len() {
        return false;
    }
    match (
        times(row.constant, point.t),
        sum_of_products(row.coeffs.as_slice(), point.w.as_slice()),
    ) {
        (Some(first), Some(rest)) => is_negative(plus(first, rest)),
        _ => false,
    }
}

/// Whether there is a number below 0.
fn is_negative(number: Option<i128>) -> bool
    ensures { result ≡ true → HasNegative number }
{
    match number {
        Some(number) => number < 0,
        None => false,
    }
}
