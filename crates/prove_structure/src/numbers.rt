//! Numbers in the range of the format, and rows, measures and points of them.

ghost use Rattle.std.specs.Prelude.{◌≡◌, IfOk};
ghost use Rattle.cert_structure.specs.Walk.{AgreesKept, are_amounts, are_entries, is_amount, is_entry};
ghost use Rattle.cert_structure.specs.Walk.{point_read, row_read};
ghost use Rattle.prove_structure.specs.Walk.{measure_read};

use fact_reading::FactFault;
use linear_rows::{Numbers, Point, Row};
use number_tests::LevelPart;
use std::alloc::{AllocError, Global};

/// Whether a number is in the range of points: from 0 to 2^127 - 1.
fn is_amount(number: i128) -> bool
    ensures { result ≡ is_amount number }
{
    number >= 0
}

/// Whether a number is in the range of rows and measures: of absolute value at most 2^127 - 1.
fn is_entry(number: i128) -> bool
    ensures { result ≡ is_entry number }
{
    number > i128::MIN
}

/// Whether each number is in the range of points.
fn are_amounts(numbers: &[i128]) -> bool
    ensures { result ≡ are_amounts numbers.now }
{
    numbers.iter().all(|number| is_amount(*number))
}

/// Whether each number is in the range of rows.
fn are_entries(numbers: &[i128]) -> bool
    ensures { result ≡ are_entries numbers.now }
{
    numbers.iter().all(|number| is_entry(*number))
}

/// A copy of numbers.
fn copied(alloc: Global, numbers: &[i128]) -> Result<Numbers, AllocError>
    ensures { IfOk result (λ copy. copy ≡ numbers.now) }
{
    Ok(Numbers::from_vec(Vec::from_slice(alloc, numbers)?))
}

/// A row with a constant and a coefficient for each of `width` columns. `Shape` where there are more or fewer numbers,
/// or where one is -2^127.
pub(crate) fn row(alloc: Global, width: u128, row: &[i128]) -> Result<Row, FactFault>
    ensures { AgreesKept result (row_read width row.now) }
{
    let Some((constant, coeffs)) = row.split_first() else {
        return Err(FactFault::Shape);
    };
    if coeffs.len() as u128 != width || !is_entry(*constant) || !are_entries(coeffs) {
        return Err(FactFault::Shape);
    }
    Ok(Row {
        constant: *constant,
        coeffs: copied(alloc, coeffs)?,
    })
}

/// A predicate's part of a measure, with a number for each of `width` columns. `Shape` where there are more or fewer,
/// or where one of them or the offset is -2^127.
pub(crate) fn measure(
    alloc: Global,
    width: u128,
    coeffs: &[i128],
    offset: i128,
) -> Result<LevelPart, FactFault>
    ensures { AgreesKept result (measure_read width coeffs.now offset) }
{
    if coeffs.len() as u128 != width || !is_entry(offset) || !are_entries(coeffs) {
        return Err(FactFault::Shape);
    }
    Ok(LevelPart {
        coeffs: copied(alloc, coeffs)?,
        offset,
    })
}

/// A point of `values` values. `Shape` where there are more or fewer, or where one of them or `t` is below 0.
pub(crate) fn point(alloc: Global, values: u128, t: i128, w: &[i128]) -> Result<Point, FactFault>
    ensures { AgreesKept result (point_read values t w.now) }
{
    if w.len() as u128 != values || !is_amount(t) || !are_amounts(w) {
        return Err(FactFault::Shape);
    }
    Ok(Point {
        t,
        w: copied(alloc, w)?,
    })
}
