//! Rows over columns that multipliers have to show.

ghost use Rattle.std.specs.Prelude.{◌≡◌, ◌↔◌, IfOk, IsTrue, None, length};
ghost use Rattle.linear_rows.specs.Plain.{HaveWidth, plain_row, plain_rows};
ghost use Rattle.linear_rows.specs.Showing.{AreMultipliers};
ghost use Rattle.number_columns.specs.ColumnLists.{HaveLength, plain_columns};
ghost use Rattle.termination_model.specs.columns.ColumnRows.{row_over as over};
ghost use Rattle.transition_tests.specs.Targets.{IsTargetShown};

use linear_rows::{Multipliers, Row, Rows};
use number_columns::{RowOver, row_over};
use number_tests::multipliers_flaw;
use std::alloc::{AllocError, Global};

/// Whether multipliers show, by scale 0, that the rows hold nowhere.
fn bottom_shown(alloc: Global, rows: &Rows, by: &Multipliers) -> Result<bool, AllocError>
    requires multipliers { AreMultipliers (length rows.now.list) by.now }
    requires width { HaveWidth rows.now.width rows.now.list }
    ensures { IfOk result (λ yes. IsTrue yes
        ↔ IsTargetShown (plain_rows rows.now.list) rows.now.width None by.now) }
{
    if by.scale != 0 {
        return Ok(false);
    }
    let bottom = Row::bottom(alloc, rows.width)?;
    Ok(multipliers_flaw(rows, Some(bottom), by).is_none())
}

/// Whether multipliers of some rows show a row over columns.
pub(crate) fn row_shown(
    alloc: Global,
    rows: &Rows,
    columns: &[Option<Row>],
    row: &Row,
    by: &Multipliers,
) -> Result<bool, AllocError>
    requires multipliers { AreMultipliers (length rows.now.list) by.now }
    requires width { HaveWidth rows.now.width rows.now.list }
    requires same { length row.now.coeffs ≡ length columns.now }
    requires lengths { HaveLength rows.now.width (plain_columns columns.now) }
    ensures { IfOk result (λ yes. IsTrue yes
        ↔ IsTargetShown (plain_rows rows.now.list) rows.now.width
        (over rows.now.width (plain_columns columns.now) (plain_row row.now)) by.now) }
{
    match row_over(alloc, row, columns, rows.width)? {
        RowOver::There(target) => Ok(multipliers_flaw(rows, Some(target), by).is_none()),
        RowOver::Missing => bottom_shown(alloc, rows, by),
        RowOver::Wide => Ok(false),
    }
}
