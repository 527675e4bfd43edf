//! Points that are remembered, and points inside of images and joins.
//!
//! A point inside is a hint: rows are tested before anybody relies on it.

ghost use Rattle.std.specs.Prelude.{◌≡◌, ◌<◌, IfOk};

use exact128::{plus, times};
use linear_rows::{Numbers, Point, Row, System};
use std::alloc::{AllocError, Global};

/// A copy of a point.
pub(crate) fn copied(alloc: Global, point: &Point) -> Result<Point, AllocError>
    ensures { IfOk result (λ p. p ≡ point.now) }
{
    let w = point.w.copy(alloc)?;
    Ok(Point { t: point.t, w })
}

/// A copy of a point, where there is one.
pub fn copied_if_known(alloc: Global, point: &Option<Point>) -> Result<Option<Point>, AllocError>
    ensures { IfOk result (λ p. p ≡ point.now) }
{
    match point {
        Some(point) => Ok(Some(copied(alloc, point)?)),
        None => Ok(None),
    }
}

/// The most bits of the numbers of a point from which or to which one goes.
const MOST_BITS: u32 = 60;

/// A point near another one, of numbers that are small enough for sums of products.
pub(crate) fn shortened(alloc: Global, point: &Point) -> Result<Point, AllocError> {
    let mut sizes = point.t.unsigned_abs();
    for number in point.w.as_slice() {
        sizes |= number.unsigned_abs();
    }
    let places = bits_above(sizes, MOST_BITS);
    let mut w = Numbers::new(alloc);
    for number in point.w.as_slice() {
        w.push(*number >> places)?;
    }
    Ok(Point {
        t: (point.t >> places).max(1),
        w,
    })
}

/// How many bits a number has more than these.
pub(crate) fn bits_above(number: u128, most: u32) -> u32
    ensures { result < 128 }
{
    u128::BITS
        .saturating_sub(number.leading_zeros())
        .saturating_sub(most)
        .min(127)
}

/// How often each of two points is taken.
#[derive(Clone, Copy)]
pub(crate) struct Weights {
    pub(crate) first: i128,
    pub(crate) second: i128,
}

impl Weights {
    /// The sum of two numbers, each taken as often as this says, where it fits.
    fn sum(self, x: i128, y: i128) -> Option<i128> {
        plus(times(self.first, x)?, times(self.second, y)?)
    }
}

/// A point on the way between two others, where its numbers fit.
pub(crate) fn weighed(
    alloc: Global,
    weights: Weights,
    first: &Point,
    second: &Point,
) -> Result<Option<Point>, AllocError> {
    let Some(t) = weights.sum(first.t, second.t) else {
        return Ok(None);
    };
    let mut w = Numbers::new(alloc);
    for k in 0..first.w.len() {
        let Some(number) = weights.sum(first.w.entry(k), second.w.entry(k)) else {
            return Ok(None);
        };
        w.push(number)?;
    }
    Ok(Some(Point { t, w }))
}

/// A point between two, if both are known and its numbers fit.
pub fn between(
    alloc: Global,
    first: &Option<Point>,
    second: &Option<Point>,
) -> Result<Option<Point>, AllocError> {
    let weights = Weights {
        first: 1,
        second: 1,
    };
    match first {
        Some(first) => match second {
            Some(second) => weighed(alloc, weights, first, second),
            None => Ok(None),
        },
        None => Ok(None),
    }
}

/// The point of the head at which each variable is 1, if no row restricts the variables.
pub fn point_of_head(alloc: Global, system: &System) -> Result<Option<Point>, AllocError> {
    if !system.rows.list.is_empty() {
        return Ok(None);
    }
    let mut w = Numbers::new(alloc);
    for row in system.head.list.as_slice() {
        let Some(number) = sum_of(row) else {
            return Ok(None);
        };
        w.push(number)?;
    }
    Ok(Some(Point { t: 1, w }))
}

/// The sum of a row's numbers, where it fits.
fn sum_of(row: &Row) -> Option<i128> {
    let mut sum = row.constant;
    for k in 0..row.coeffs.len() {
        sum = plus(sum, row.coeffs.entry(k))?;
    }
    Some(sum)
}
