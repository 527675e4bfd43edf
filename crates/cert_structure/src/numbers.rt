//! Numbers in the range of the format, and rows, levels, points and multipliers of them.

ghost use Rattle.std.specs.Prelude.{◌≡◌, IfOk};
ghost use Rattle.cert_structure.specs.Walk.{is_amount, is_entry, are_amounts, are_entries, multipliers_read, row_read, level_read, point_read, AgreesKept};

use fact_reading::FactFault;
use linear_rows::{Multipliers, Numbers, Point, Row};
use number_tests::LevelPart;
use std::alloc::{AllocError, Global};

/// Whether a number is in the range of multipliers, coefficients and points: from 0 to 2^127 - 1.
fn is_amount(number: i128) -> bool
    ensures { result ≡ is_amount number }
{
    number >= 0
}

/// Whether a number is in the range of rows: of absolute value at most 2^127 - 1.
fn is_entry(number: i128) -> bool
    ensures { result ≡ is_entry number }
{
    number > i128::MIN
}

/// Whether each number is in the range of multipliers.
fn are_amounts(numbers: &[i128]) -> bool
    ensures { result ≡ are_amounts numbers.now }
{
    numbers.iter().all(|number| is_amount(*number))
}

/// Whether each number is in the range of rows.
fn are_entries(numbers: &[i128]) -> bool
    ensures { result ≡ are_entries numbers.now }
{
    numbers.iter().all(|number| is_entry(*number))
}

/// A copy of numbers.
fn copied(alloc: Global, numbers: &[i128]) -> Result<Numbers, AllocError>
    ensures { IfOk result (λ copy. copy ≡ numbers.now) }
{
    Ok(Numbers::from_vec(Vec::from_slice(alloc, numbers)?))
}

/// Multipliers, one for each of `rows` rows. `Shape` where there are more or fewer, or where one of them or the scale
/// is below 0.
pub fn multipliers(
    alloc: Global,
    rows: u128,
    scale: i128,
    list: &[i128],
) -> Result<Multipliers, FactFault>
    ensures { AgreesKept result (multipliers_read rows scale list.now) }
{
    if list.len() as u128 != rows || !is_amount(scale) || !are_amounts(list) {
        return Err(FactFault::Shape);
    }
    Ok(Multipliers {
        scale,
        list: copied(alloc, list)?,
    })
}

/// A row with a constant and a coefficient for each of `arity` arguments. `Shape` where there are more or fewer
/// numbers, or where one is -2^127.
pub fn size_row(alloc: Global, arity: u32, row: &[i128]) -> Result<Row, FactFault>
    ensures { AgreesKept result (row_read arity row.now) }
{
    let Some((constant, coeffs)) = row.split_first() else {
        return Err(FactFault::Shape);
    };
    if coeffs.len() != arity as usize || !is_entry(*constant) || !are_entries(coeffs) {
        return Err(FactFault::Shape);
    }
    Ok(Row {
        constant: *constant,
        coeffs: copied(alloc, coeffs)?,
    })
}

/// A level with a coefficient for each of `arity` arguments. `Shape` where there are more or fewer, or where one of
/// them or the offset is below 0.
pub fn level(
    alloc: Global,
    arity: u32,
    coeffs: &[i128],
    offset: i128,
) -> Result<LevelPart, FactFault>
    ensures { AgreesKept result (level_read arity coeffs.now offset) }
{
    if coeffs.len() != arity as usize || !are_amounts(coeffs) || !is_amount(offset) {
        return Err(FactFault::Shape);
    }
    Ok(LevelPart {
        coeffs: copied(alloc, coeffs)?,
        offset,
    })
}

/// A point with a value for each of `vars` variables. `Shape` where there are more or fewer, or where one of them or
/// `t` is below 0.
pub fn scaled_point(alloc: Global, vars: u32, t: i128, w: &[i128]) -> Result<Point, FactFault>
    ensures { AgreesKept result (point_read vars t w.now) }
{
    if w.len() != vars as usize || !is_amount(t) || !are_amounts(w) {
        return Err(FactFault::Shape);
    }
    Ok(Point {
        t,
        w: copied(alloc, w)?,
    })
}
