//! Columns of rows, of which the constants are column 0.

ghost use Rattle.std.specs.Prelude.{◌≡◌, length, ◌<◌, SomeIff, All};
ghost use Rattle.exact128.specs.Sums.{entry, dot, DotFits};
ghost use Rattle.linear_rows.specs.Rows.{column};
ghost use Rattle.linear_rows.specs.Plain.{plain_row, plain_rows};

use crate::row::Row;
use exact128::{plus, times};

/// The number of a row in a column, and 0 past the last one.
pub fn number(row: &Row, k: usize) -> i128
    ensures { result ≡ entry (plain_row row.now) k }
{
    match k.checked_sub(1) {
        Some(place) => row.coeffs.entry(place),
        None => row.constant,
    }
}

/// The sum of a column's numbers, each times its row's multiplier, where each product and running sum fits.
pub fn column_sum(rows: &[Row], multipliers: &[i128], k: usize) -> Option<i128>
    requires lengths { length multipliers.now ≡ length rows.now }
    requires column { All (λ r. k < length (plain_row r)) rows.now }
    ensures { SomeIff result (DotFits (length rows.now) multipliers.now
        (column (plain_rows rows.now) k))
        (dot multipliers.now (column (plain_rows rows.now) k)) }
{
    let mut sum = 0;
    for i in 0..rows.len() {
        let Some(product) = times(multipliers[i], number(&rows[i], k)) else {
            return None;
        };
        let Some(next) = plus(sum, product) else {
            return None;
        };
        sum = next;
    }
    Some(sum)
}
