//! Whether rows are the same, so that steps can share them.

ghost use Rattle.std.specs.Prelude.{◌≡◌, true};
ghost use Rattle.linear_rows.specs.Plain.{plain_row, plain_rows};

use linear_rows::Row;

/// Whether two rows have the same numbers.
fn is_same_row(a: &Row, b: &Row) -> bool
    ensures { result ≡ true → plain_row a.now ≡ plain_row b.now }
{
    a.constant == b.constant && a.coeffs.as_slice() == b.coeffs.as_slice()
}

/// Whether two lists have the same rows, in the same order.
pub(crate) fn are_same_rows(a: &[Row], b: &[Row]) -> bool
    ensures { result ≡ true → plain_rows a.now ≡ plain_rows b.now }
{
    if a.len() != b.len() {
        return false;
    }
    for i in 0..a.len() {
        if !is_same_row(&a[i], &b[i]) {
            return false;
        }
    }
    true
}
