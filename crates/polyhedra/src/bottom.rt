//! The row that holds nowhere.

ghost use Rattle.std.specs.Prelude.{◌≡◌, IfOk, length};
ghost use Rattle.linear_rows.specs.Plain.{plain_row};
ghost use Rattle.termination_model.specs.chains.ChainRows.{bottom_row};

use linear_rows::{Numbers, Row};
use std::alloc::{AllocError, Global};

/// The row of constant -1 and the given number of zeros.
pub fn bottom_row(alloc: Global, n: usize) -> Result<Row, AllocError>
    ensures row { IfOk result (λ r. plain_row r ≡ bottom_row n) }
    ensures width { IfOk result (λ r. length r.coeffs ≡ n) }
{
    let coeffs = Numbers::from_vec(vec![in alloc; 0; n]?);
    Ok(Row {
        constant: -1,
        coeffs,
    })
}
