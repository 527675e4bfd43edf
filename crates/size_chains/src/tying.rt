//! Naturals for the columns of a head that have no expression.

ghost use Rattle.std.specs.Prelude.{◌≡◌, ◌+◌, ◌≤◌, ◌<◌, ◌^◌, ◌++◌, ◌∷◌, pos, IfOk, OnOk, length, map};
ghost use Rattle.std.specs.List.{AllByRecursion};
ghost use Rattle.linear_rows.specs.Plain.{HaveWidth, plain_row, plain_rows};
ghost use Rattle.linear_rows.specs.Solving.{units, zeros};
ghost use Rattle.size_chains.specs.Making.{plain_or_none};
ghost use Rattle.size_chains.specs.Systems.{IsHeadColumn, missing, tied, widened};

use linear_rows::{Numbers, Row, Rows};
use redundant_rows::{push_all, push_alone, push_zeros};
use std::alloc::{AllocError, Global};

/// How many columns have no expression.
pub(crate) fn missing(columns: &[Option<Row>]) -> u32
    requires { length columns.now < 2 ^ 32 }
    ensures count { result ≡ missing (map plain_or_none columns.now) }
    ensures most { result ≤ length columns.now }
{
    let mut count = 0;
    for column in columns {
        if column.is_none() {
            count += 1;
        }
    }
    count
}

/// The columns over the given naturals and `more` others: a column without an expression is the next of these.
pub(crate) fn tied_rows(
    alloc: Global,
    naturals: u32,
    more: u32,
    columns: &[Option<Row>],
) -> Result<Rows, AllocError>
    requires columns { AllByRecursion (IsHeadColumn naturals) (map plain_or_none columns.now) }
    requires more { more ≡ missing (map plain_or_none columns.now) }
    requires few { naturals + more < 2 ^ 32 }
    ensures width { IfOk result (λ r. r.width ≡ naturals + more) }
    ensures widths { IfOk result (λ r. HaveWidth (naturals + more) r.list) }
    ensures rows { IfOk result
        (λ r. plain_rows r.list ≡ tied naturals more 0 (map plain_or_none columns.now)) }
{
    let mut rows = Rows::new(alloc, naturals + more);
    let mut place = 0;
    for column in columns {
        match column {
            Some(row) => rows.push(widened_row(alloc, row, more)?)?,
            None => {
                rows.push(own_row(alloc, naturals, more, place)?)?;
                place += 1;
            }
        }
    }
    Ok(rows)
}

/// One of the other naturals, as a row over all.
fn own_row(alloc: Global, naturals: u32, more: u32, place: u32) -> Result<Row, AllocError>
    requires { place < more }
    ensures row { IfOk result (λ r. plain_row r ≡ pos 0 ∷ (zeros naturals ++ units more place)) }
    ensures width { IfOk result (λ r. length r.coeffs ≡ naturals + more) }
{
    let mut coeffs = Numbers::new(alloc);
    push_zeros(&mut coeffs, naturals as usize)?;
    push_alone(&mut coeffs, place as usize, 1, (more - place - 1) as usize)?;
    Ok(Row {
        constant: 0,
        coeffs,
    })
}

/// A row with zeros for more naturals.
fn widened_row(alloc: Global, row: &Row, more: u32) -> Result<Row, AllocError>
    ensures row { IfOk result (λ r. plain_row r ≡ widened more (plain_row row.now)) }
    ensures width { IfOk result (λ r. length r.coeffs ≡ length row.now.coeffs + more) }
{
    let mut coeffs = Numbers::new(alloc);
    push_all(&mut coeffs, &row.coeffs)?;
    push_zeros(&mut coeffs, more as usize)?;
    Ok(Row {
        constant: row.constant,
        coeffs,
    })
}

/// Rows with zeros for more naturals. Where there are no more, they stay.
pub(crate) fn widened_rows(alloc: Global, rows: Rows, more: u32) -> Result<Rows, AllocError>
    requires few { rows.width + more < 2 ^ 32 }
    requires widths { HaveWidth rows.width rows.list }
    ensures width { IfOk result (λ r. r.width ≡ rows.width + more) }
    ensures widths { IfOk result (λ r. HaveWidth (rows.width + more) r.list) }
    ensures rows { IfOk result (λ r. plain_rows r.list ≡ map (widened more) (plain_rows rows.list)) }
{
    if more == 0 {
        return Ok(rows);
    }
    let mut wide = Rows::new(alloc, rows.width + more);
    push_widened(alloc, &rows, more, &mut wide)?;
    Ok(wide)
}

/// Appends rows with zeros for more naturals.
fn push_widened(alloc: Global, rows: &Rows, more: u32, wide: &mut Rows) -> Result<(), AllocError>
    requires width { wide.old.width ≡ rows.now.width + more }
    requires widths { HaveWidth rows.now.width rows.now.list }
    requires wide { HaveWidth wide.old.width wide.old.list }
    ensures width { wide.new.width ≡ wide.old.width }
    ensures widths { HaveWidth wide.old.width wide.new.list }
    ensures rows { OnOk result (plain_rows wide.new.list ≡ plain_rows wide.old.list
        ++ map (widened more) (plain_rows rows.now.list)) }
{
    for row in rows.list.as_slice() {
        wide.push(widened_row(alloc, row, more)?)?;
    }
    Ok(())
}
