//! Points one step beside a point inside of rows.
//!
//! Of a row that has the value 0 inside, as both rows of an equation have, most often such a point shows that the
//! others do not imply it. It is tested before anybody relies on it.

ghost use Rattle.std.specs.Prelude.{◌≡◌, length, IfOk, IfSome};
ghost use Rattle.linear_rows.specs.Plain.{plain_row, plain_rows, HaveWidth};
ghost use Rattle.linear_rows.specs.Showing.{FailsAt};

use linear_rows::{Point, Row, Rows};
use simplex::fails_at;
use std::alloc::{AllocError, Global};

/// A point one step beside the one inside, along one column, where the rows hold and a row fails. It is looked for only
/// where the row has the value 0 inside.
pub(crate) fn failing_beside(
    alloc: Global,
    rows: &Rows,
    row: &Row,
    inside: &Option<Point>,
) -> Result<Option<Point>, AllocError>
    requires rows { HaveWidth rows.now.width rows.now.list }
    requires row { length row.now.coeffs ≡ rows.now.width }
    ensures { IfOk result (λ o. IfSome o
        (FailsAt rows.now.width (plain_rows rows.now.list) (plain_row row.now))) }
{
    match inside {
        Some(inside) if row.value_at(inside.t, inside.w.as_slice()) == Some(0) => {
            along_columns(alloc, rows, row, inside)
        }
        _ => Ok(None),
    }
}

/// A point one step beside the one inside, along the first column where there is one.
fn along_columns(
    alloc: Global,
    rows: &Rows,
    row: &Row,
    inside: &Point,
) -> Result<Option<Point>, AllocError>
    requires rows { HaveWidth rows.now.width rows.now.list }
    requires row { length row.now.coeffs ≡ rows.now.width }
    ensures { IfOk result (λ o. IfSome o
        (FailsAt rows.now.width (plain_rows rows.now.list) (plain_row row.now))) }
{
    for column in 0..row.coeffs.len() {
        if let Some(point) = stepped(alloc, row, inside, column)? {
            if fails_at(rows, row, &point) {
                return Ok(Some(point));
            }
        }
    }
    Ok(None)
}

/// The point one step beside another one along a column, on the side where a row falls, if the row has the column and
/// the point is one of naturals.
fn stepped(
    alloc: Global,
    row: &Row,
    inside: &Point,
    column: usize,
) -> Result<Option<Point>, AllocError> {
    let coefficient = row.coeffs.entry(column);
    if coefficient == 0 || column >= inside.w.len() {
        return Ok(None);
    }
    let step = if coefficient > 0 { -1 } else { 1 };
    let Some(number) = inside.w.entry(column).checked_add(step) else {
        return Ok(None);
    };
    if number < 0 {
        return Ok(None);
    }
    let mut w = inside.w.copy(alloc)?;
    w.set(column, number);
    Ok(Some(Point { t: inside.t, w }))
}
