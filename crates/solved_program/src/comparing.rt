//! Whether size rows are the same.

ghost use Rattle.std.specs.Prelude.{◌≡◌, ◌↔◌, IsTrue};
ghost use Rattle.linear_rows.specs.Plain.{plain_row, plain_rows};

use linear_rows::{Row, Rows};

/// Whether two rows have the same numbers.
fn is_same_row(a: &Row, b: &Row) -> bool
    ensures { IsTrue result ↔ (plain_row a.now ≡ plain_row b.now) }
{
    a.constant == b.constant && a.coeffs.as_slice() == b.coeffs.as_slice()
}

/// Whether two lists have the same rows in the same order.
pub(crate) fn are_same_rows(a: &Rows, b: &Rows) -> bool
    ensures { IsTrue result ↔ (plain_rows a.now.list ≡ plain_rows b.now.list) }
{
    let xs = a.list.as_slice();
    let ys = b.list.as_slice();
    if xs.len() != ys.len() {
        return false;
    }
    for i in 0..xs.len() {
        if !is_same_row(&xs[i], &ys[i]) {
            return false;
        }
    }
    true
}
