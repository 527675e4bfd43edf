//! Size rows of heads.

ghost use Rattle.std.specs.Prelude.{◌≡◌, ◌↔◌, ◌∷◌, [], IfOk, IsTrue, length};
ghost use Rattle.linear_rows.specs.Plain.{HaveWidth, plain_row, plain_rows};
ghost use Rattle.linear_rows.specs.Showing.{AreMultipliers};
ghost use Rattle.number_columns.specs.ColumnLists.{HaveLength, plain_column, plain_columns};
ghost use Rattle.termination_model.specs.columns.ColumnRows.{least};
ghost use Rattle.transition_tests.specs.Targets.{IsSizeRowShown};

use crate::targets::row_shown;
use linear_rows::{Multipliers, Numbers, Row, Rows};
use std::alloc::{AllocError, Global};

/// A number of a size row over a column: one above 0 counts as 0 where the column is not there.
fn least_number(number: i128, column: &Option<Row>) -> i128
    ensures { result ∷ [] ≡ least (number ∷ []) (plain_column column.now ∷ []) }
{
    match column {
        Some(_) => number,
        None => number.min(0),
    }
}

/// A size row where the numbers above 0 at columns that are not there are 0.
fn least_row(alloc: Global, row: &Row, heads: &[Option<Row>]) -> Result<Row, AllocError>
    requires { length row.now.coeffs ≡ length heads.now }
    ensures { IfOk result (λ r. plain_row r ≡ row.now.constant
        ∷ least row.now.coeffs (plain_columns heads.now)) }
{
    let mut coeffs = Numbers::new(alloc);
    for i in 0..heads.len() {
        coeffs.push(least_number(row.coeffs.entry(i), &heads[i]))?;
    }
    Ok(Row {
        constant: row.constant,
        coeffs,
    })
}

/// Whether multipliers of the rows show a size row of a head with these columns. A number above 0 at a column that is
/// not there counts as 0, since no column is below 0.
pub fn size_row_shown(
    alloc: Global,
    row: &Row,
    heads: &[Option<Row>],
    rows: &Rows,
    by: &Multipliers,
) -> Result<bool, AllocError>
    requires same { length row.now.coeffs ≡ length heads.now }
    requires lengths { HaveLength rows.now.width (plain_columns heads.now) }
    requires width { HaveWidth rows.now.width rows.now.list }
    requires multipliers { AreMultipliers (length rows.now.list) by.now }
    ensures { IfOk result (λ yes. IsTrue yes ↔ IsSizeRowShown (plain_rows rows.now.list)
        rows.now.width (plain_columns heads.now) (plain_row row.now) by.now) }
{
    let least = least_row(alloc, row, heads)?;
    row_shown(alloc, rows, heads, &least, by)
}
