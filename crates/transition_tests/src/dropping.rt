//! Drops of lists of measures at transitions.

ghost use Rattle.std.specs.Prelude.{◌≡◌, ◌-ℤ◌, ◌++◌, ◌↔◌, IfOk, IsTrue, OnOk, length, neg_ℤ, pos, true};
ghost use Rattle.exact128.specs.Fits.{fits};
ghost use Rattle.linear_rows.specs.Plain.{plain_row};
ghost use Rattle.linear_rows.specs.Showing.{AreMultipliers};
ghost use Rattle.number_columns.specs.ColumnLists.{plain_columns};
ghost use Rattle.number_tests.specs.Drops.{drop_weights, fall_number};
ghost use Rattle.number_turns.specs.Recalled.{recalled};
ghost use Rattle.transition_tests.specs.Drops.{IsDropped, IsShownAt, fall_by, level_by};
ghost use Rattle.transition_tests.specs.Shape.{CanDrop, HasLengths, IsPartOf};
ghost use Rattle.transition_tests.specs.Testing.{joined_at};

use crate::targets::row_shown;
use linear_rows::{Multipliers, Numbers, Row, zeros};
use number_columns::ColumnList;
use number_tests::LevelPart;
use number_turns::Transition;
use sequences::Sequence;
use std::alloc::{AllocError, Global};

/// A copy of a column.
fn copied(alloc: Global, column: &Option<Row>) -> Result<Option<Row>, AllocError>
    ensures { IfOk result (λ copy. copy ≡ column.now) }
{
    match column {
        Some(row) => Ok(Some(row.copy(alloc)?)),
        None => Ok(None),
    }
}

/// Appends copies of columns.
fn add_copies(
    alloc: Global,
    columns: &[Option<Row>],
    list: &mut ColumnList,
) -> Result<(), AllocError>
    ensures { OnOk result (list.new ≡ list.old ++ columns.now) }
{
    for i in 0..columns.len() {
        list.push(copied(alloc, &columns[i])?)?;
    }
    Ok(())
}

/// The columns of a transition's head, the number 1, and the columns of its call.
fn joined_columns(alloc: Global, transition: &Transition) -> Result<ColumnList, AllocError>
    ensures { IfOk result (λ list. plain_columns list ≡ joined_at transition.now) }
{
    let mut list = Sequence::new(alloc);
    add_copies(alloc, transition.head.columns.as_slice(), &mut list)?;
    let coeffs = zeros(alloc, transition.rows.width as usize)?;
    list.push(Some(Row {
        constant: 1,
        coeffs,
    }))?;
    add_copies(alloc, transition.call.columns.as_slice(), &mut list)?;
    Ok(list)
}

/// The offset of a call with the other sign, and 1 less where the levels fall.
fn offset_weight(call: &LevelPart, falls: bool) -> i128
    requires { fits call.now.offset ≡ true }
    ensures { result ≡ neg_ℤ call.now.offset -ℤ pos (fall_number falls) }
{
    if falls {
        -call.offset - 1
    } else {
        -call.offset
    }
}

/// What counts of a drop, as a row over joined columns: the head's part, and the call's with the other sign, and 1 less
/// where the levels fall.
fn drop_row(
    alloc: Global,
    head: &LevelPart,
    call: &LevelPart,
    falls: bool,
) -> Result<Row, AllocError>
    requires { IsPartOf (length call.now.coeffs) call.now }
    ensures { IfOk result
        (λ r. plain_row r ≡ drop_weights (fall_number falls) head.now call.now) }
{
    let mut coeffs = Vec::from_slice(alloc, head.coeffs.as_slice())?;
    coeffs.push(offset_weight(call, falls))?;
    for coefficient in call.coeffs.as_slice() {
        coeffs.push(-*coefficient)?;
    }
    Ok(Row {
        constant: head.offset,
        coeffs: Numbers::from_vec(coeffs),
    })
}

/// Whether multipliers show that a measure does not rise at a transition, or that it falls.
fn fall_shown(
    alloc: Global,
    transition: &Transition,
    joined: &[Option<Row>],
    head: &LevelPart,
    call: &LevelPart,
    falls: bool,
    by: &Multipliers,
) -> Result<bool, AllocError>
    requires lengths { HasLengths transition.now }
    requires joined { plain_columns joined.now ≡ joined_at transition.now }
    requires head { IsPartOf (length transition.now.head.columns) head.now }
    requires call { IsPartOf (length transition.now.call.columns) call.now }
    requires multipliers { AreMultipliers (length transition.now.rows.list) by.now }
    ensures { IfOk result (λ yes. IsTrue yes ↔ IsShownAt (recalled transition.now)
        (fall_by (recalled transition.now) (fall_number falls) head.now call.now) by.now) }
{
    let row = drop_row(alloc, head, call, falls)?;
    row_shown(alloc, &transition.rows, joined, &row, by)
}

/// Whether multipliers show that a measure is at least 0 on the head.
fn level_shown(
    alloc: Global,
    transition: &Transition,
    head: &LevelPart,
    by: &Multipliers,
) -> Result<bool, AllocError>
    requires lengths { HasLengths transition.now }
    requires head { IsPartOf (length transition.now.head.columns) head.now }
    requires multipliers { AreMultipliers (length transition.now.rows.list) by.now }
    ensures { IfOk result (λ yes. IsTrue yes ↔ IsShownAt (recalled transition.now)
        (level_by (recalled transition.now).vars (recalled transition.now).head_columns
        head.now) by.now) }
{
    let row = Row {
        constant: head.offset,
        coeffs: head.coeffs.copy(alloc)?,
    };
    let columns = transition.head.columns.as_slice();
    row_shown(alloc, &transition.rows, columns, &row, by)
}

/// Whether multipliers show that the measures of a list drop at a transition: that none before the last that has some
/// rises, that the last one falls, and, by the floor, that it is at least 0 on the head.
pub fn drops_at(
    alloc: Global,
    transition: &Transition,
    heads: &[LevelPart],
    calls: &[LevelPart],
    drops: &[Multipliers],
    floor: &Multipliers,
) -> Result<bool, AllocError>
    requires lengths { HasLengths transition.now }
    requires parts { CanDrop transition.now heads.now calls.now drops.now floor.now }
    ensures { IfOk result (λ yes. IsTrue yes
        ↔ IsDropped (recalled transition.now) heads.now calls.now drops.now floor.now) }
{
    let columns = joined_columns(alloc, transition)?;
    let joined = columns.as_slice();
    let last = drops.len() - 1;
    let (head, call) = (&heads[last], &calls[last]);
    for i in 0..last {
        if !fall_shown(
            alloc, transition, joined, &heads[i], &calls[i], false, &drops[i],
        )? {
            return Ok(false);
        }
    }
    if !fall_shown(alloc, transition, joined, head, call, true, &drops[last])? {
        return Ok(false);
    }
    level_shown(alloc, transition, head, floor)
}
