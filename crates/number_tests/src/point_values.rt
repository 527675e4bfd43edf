//! Values of rows at points.

ghost use Rattle.std.specs.Prelude.{◌≡◌, All, IfOk, SomeIff, length};
ghost use Rattle.std.specs.List.{AllByRecursion};
ghost use Rattle.number_tests.specs.Refuting.{ValueFits, numbers_of, values_of};
ghost use Rattle.exact128.specs.Sums.{dot};
ghost use Rattle.linear_rows.specs.Plain.{HaveWidth, plain_row, plain_rows};

use exact128::{plus, times};
use linear_rows::{Numbers, Point, Row, Rows};
use std::alloc::{AllocError, Global};

/// The value of a row at a point, where each product and running sum fits.
///
/// The constant times `t` comes first, and then the products of the coefficients with the values in order.
pub(crate) fn value_at(row: &Row, point: &Point) -> Option<i128>
    requires { length row.now.coeffs ≡ length point.now.w }
    ensures { SomeIff result (ValueFits point.now (plain_row row.now))
        (dot (plain_row row.now) (numbers_of point.now)) }
{
    let Some(mut sum) = times(row.constant, point.t) else {
        return None;
    };
    for x in 0..row.coeffs.len() {
        let Some(product) = times(row.coeffs.entry(x), point.w.entry(x)) else {
            return None;
        };
        let Some(next) = plus(sum, product) else {
            return None;
        };
        sum = next;
    }
    Some(sum)
}

/// The values of expressions at a point after its `t`, where each of their numbers fits.
pub(crate) fn values_at(
    alloc: Global,
    sizes: &Rows,
    point: &Point,
) -> Result<Option<Numbers>, AllocError>
    requires { HaveWidth (length point.now.w) sizes.now.list }
    ensures { IfOk result (λ values. SomeIff values
        (AllByRecursion (ValueFits point.now) (plain_rows sizes.now.list))
        (values_of (plain_rows sizes.now.list) point.now)) }
{
    let mut values = Numbers::new(alloc);
    values.push(point.t)?;
    for size in sizes.list.as_slice() {
        let Some(value) = value_at(size, point) else {
            return Ok(None);
        };
        values.push(value)?;
    }
    Ok(Some(values))
}
