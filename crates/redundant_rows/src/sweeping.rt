//! Rows without those that the others imply.

ghost use Rattle.std.specs.Prelude.{◌≡◌, ◌+◌, ◌<◌, ◌≤◌, suc, IfOk, OnOk, IfSome, length, take, drop, slice_get, Some, [], ◌∷◌, ◌++◌, true, false, map};
ghost use Rattle.linear_rows.specs.Plain.{plain_row, plain_rows, HaveWidth};
ghost use Rattle.linear_rows.specs.Irredundant.{without_place};
ghost use Rattle.redundant_rows.specs.Choosing.{IsCore, AllHoldOn};
ghost use Rattle.redundant_rows.specs.Sweeping.{IsSwept, IsNeeded, IsImplied, IsLess};
ghost use Rattle.termination_model.specs.chains.ChainRows.{HasSublist};

use crate::hints::Hints;
use linear_rows::{Row, RowList, Rows};
use std::alloc::{AllocError, Global};

// Rows without one, and that one.
#[derive(Drop)]
struct Parted {
    others: Rows,
    row: Row,
}

/// Takes the row at a place out.
fn part(rows: Rows, place: usize) -> Parted
    requires place { place < length rows.list }
    requires width { HaveWidth rows.width rows.list }
    ensures width { result.others.width ≡ rows.width }
    ensures widths { HaveWidth rows.width result.others.list }
    ensures others { result.others.list ≡ take place rows.list ++ drop (suc place) rows.list }
    ensures row { slice_get rows.list place ≡ Some result.row }
    ensures row_width { length result.row.coeffs ≡ rows.width }
{
    let width = rows.width;
    let mut items = rows.list.into_vec();
    let row = items.remove(place);
    Parted {
        others: Rows {
            width,
            list: RowList::from_vec(items),
        },
        row,
    }
}

/// Puts a row at a place.
fn put(others: Rows, place: usize, row: Row) -> Result<Rows, AllocError>
    requires place { place ≤ length others.list }
    ensures width { IfOk result (λ r. r.width ≡ others.width) }
    ensures rows { IfOk result
        (λ r. r.list ≡ take place others.list ++ row ∷ drop place others.list) }
{
    let width = others.width;
    let mut items = others.list.into_vec();
    items.insert(place, row)?;
    Ok(Rows {
        width,
        list: RowList::from_vec(items),
    })
}

// What a sweep leaves, and whether it took rows out.
#[derive(Drop)]
struct Swept {
    rows: Rows,
    fewer: bool,
}

/// Takes the row at a place out where it holds on the others. It is not tested where a point is known at which it alone
/// fails.
fn try_row(alloc: Global, rows: Rows, place: usize, hints: &Hints) -> Result<Swept, AllocError>
    requires place { place < length rows.list }
    requires width { HaveWidth rows.width rows.list }
    ensures width { IfOk result (λ s. s.rows.width ≡ rows.width) }
    ensures widths { IfOk result (λ s. HaveWidth rows.width s.rows.list) }
    ensures kept { IfOk result (λ s. s.fewer ≡ false → (s.rows.list ≡ rows.list)
        × IsNeeded rows.width (plain_rows rows.list) place) }
    ensures out { IfOk result (λ s. s.fewer ≡ true
        → (plain_rows s.rows.list ≡ without_place place (plain_rows rows.list))
        × IsImplied rows.width (plain_rows rows.list) place) }
{
    let parted = part(rows, place);
    if hints.holds_apart(alloc, &parted.others, &parted.row, place)? {
        return Ok(Swept {
            rows: parted.others,
            fewer: true,
        });
    }
    Ok(Swept {
        rows: put(parted.others, place, parted.row)?,
        fewer: false,
    })
}

/// Takes each row out that holds on the others that are left.
fn sweep(alloc: Global, rows: Rows, hints: &mut Hints) -> Result<Swept, AllocError>
    requires width { HaveWidth rows.width rows.list }
    ensures width { IfOk result (λ s. s.rows.width ≡ rows.width) }
    ensures widths { IfOk result (λ s. HaveWidth s.rows.width s.rows.list) }
    ensures less { IfOk result
        (λ s. IsLess rows.width (plain_rows rows.list) (plain_rows s.rows.list)) }
    ensures swept { IfOk result (λ s. s.fewer ≡ false
        → IsSwept rows.width (plain_rows s.rows.list) (length (plain_rows s.rows.list))) }
    ensures fewer { IfOk result (λ s. s.fewer ≡ true → length s.rows.list < length rows.list) }
{
    let mut rows = rows;
    let mut fewer = false;
    let mut place = 0;
    while place < rows.list.len() {
        let tried = try_row(alloc, rows, place, hints)?;
        rows = tried.rows;
        if tried.fewer {
            fewer = true;
            hints.forget(place);
        } else {
            place += 1;
        }
    }
    Ok(Swept { rows, fewer })
}

/// An irredundant part of the rows, on which each of them holds.
///
/// Sweeps go on until one takes nothing out, since a test that was blown may be decided once there are fewer rows.
pub(crate) fn irredundant(alloc: Global, rows: Rows, hints: &mut Hints) -> Result<Rows, AllocError>
    requires width { HaveWidth rows.width rows.list }
    ensures width { IfOk result (λ r. r.width ≡ rows.width) }
    ensures widths { IfOk result (λ r. HaveWidth r.width r.list) }
    ensures core { IfOk result (λ r. IsCore rows.width (plain_rows rows.list) (plain_rows r.list)) }
{
    let mut left = rows;
    loop {
        let swept = sweep(alloc, left, hints)?;
        left = swept.rows;
        if !swept.fewer {
            return Ok(left);
        }
    }
}
