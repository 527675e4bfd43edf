//! Rows over a clause's variables that multipliers have to show.

ghost use Rattle.std.specs.Prelude.{◌≡◌, ◌≤◌, ◌≤ℤ◌, ◌-ℤ◌, ◌∷◌, ◌++◌, All, IfOk, length, map, neg_ℤ, pos};
ghost use Rattle.number_tests.specs.Drops.{drop_weights, fall_number};
ghost use Rattle.number_tests.specs.Targets.{joined};
ghost use Rattle.linear_rows.specs.Plain.{plain_row};
ghost use Rattle.termination_model.specs.sizes.Replacing.{IsRowIfFits, over_columns};

use crate::level_part::LevelPart;
use linear_rows::{Numbers, Row};
use std::alloc::{AllocError, Global};
use termination_model::replaced;

/// A size row of a head over the clause's variables, where each of its numbers fits.
///
/// The columns are those of the head's arguments.
pub fn size_target(alloc: Global, row: &Row, columns: &[Numbers]) -> Result<Option<Row>, AllocError>
    requires some { 1 ≤ length columns.now }
    requires lengths { All (λ c. length c ≡ length (plain_row row.now)) columns.now }
    ensures { IfOk result (IsRowIfFits (over_columns columns.now (plain_row row.now))) }
{
    let mut numbers = Vec::new(alloc);
    numbers.push(row.constant)?;
    numbers.extend_from_slice(row.coeffs.as_slice())?;
    replaced(alloc, numbers.as_slice(), columns)
}

/// The columns of a head's arguments, each followed by that of a call's.
pub fn join_columns(
    alloc: Global,
    head: &[Numbers],
    call: &[Numbers],
) -> Result<Vec<Numbers>, AllocError>
    requires { length head.now ≡ length call.now }
    ensures { IfOk result (λ columns. columns.items ≡ joined head.now call.now) }
{
    let mut columns = Vec::new(alloc);
    for x in 0..head.len() {
        let mut numbers = Vec::from_slice(alloc, head[x].as_slice())?;
        numbers.extend_from_slice(call[x].as_slice())?;
        columns.push(Numbers::from_vec(numbers))?;
    }
    Ok(columns)
}

/// The offset of a call with the other sign, and 1 less where the levels fall.
fn offset_weight(call: &LevelPart, falls: bool) -> i128
    requires { pos 0 ≤ℤ call.now.offset }
    ensures { result ≡ neg_ℤ call.now.offset -ℤ pos (fall_number falls) }
{
    if falls {
        -call.offset - 1
    } else {
        -call.offset
    }
}

/// What counts of a drop: the head's offset and coefficients, and the call's with the other sign, and 1 less where the
/// levels fall.
pub fn weigh_drop(
    alloc: Global,
    head: &LevelPart,
    call: &LevelPart,
    falls: bool,
) -> Result<Vec<i128>, AllocError>
    requires offset { pos 0 ≤ℤ call.now.offset }
    requires coefficients { All (λ x. pos 0 ≤ℤ x) call.now.coeffs }
    ensures { IfOk result (λ weights. weights.items
        ≡ drop_weights (fall_number falls) head.now call.now) }
{
    let mut weights = Vec::new(alloc);
    weights.push(head.offset)?;
    weights.extend_from_slice(head.coeffs.as_slice())?;
    weights.push(offset_weight(call, falls))?;
    for coefficient in call.coeffs.as_slice() {
        weights.push(-*coefficient)?;
    }
    Ok(weights)
}
