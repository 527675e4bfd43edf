//! The test of a point that shows that a row does not hold on rows.

ghost use Rattle.std.specs.Prelude.{◌≡◌, length, true};
ghost use Rattle.linear_rows.specs.Plain.{plain_row, plain_rows, HaveWidth};
ghost use Rattle.linear_rows.specs.Showing.{FailsAt};

use linear_rows::{Point, Row, Rows};
use tableaux::is_point;

/// Whether a row is seen to fail at a point at which all rows are seen to hold, in numbers that fit.
pub fn fails_at(rows: &Rows, row: &Row, point: &Point) -> bool
    requires width { HaveWidth rows.now.width rows.now.list }
    requires row { length row.now.coeffs ≡ rows.now.width }
    ensures { result ≡ true → FailsAt rows.now.width (plain_rows rows.now.list) (plain_row row.now) point.now }
{
    let w = point.w.as_slice();
    match row.value_at(point.t, w) {
        Some(value) => value < 0 && is_point(rows, point.t, w),
        None => false,
    }
}
