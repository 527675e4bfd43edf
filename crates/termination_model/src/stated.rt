//! The stated size rows of built-in predicates.

ghost use Rattle.std.specs.Prelude.{◌≡◌, IfOk};
ghost use Rattle.linear_rows.specs.Plain.{plain_row, plain_rows, HaveWidth};
ghost use Rattle.termination_model.specs.sizes.Stated.{is_row, stated_rows};

use cti_terms::Builtin;
use linear_rows::{Numbers, Row, Rows};
use std::alloc::{AllocError, Global};

/// The row of `is`: the size of its first argument is at most 0.
fn is_row(alloc: Global) -> Result<Row, AllocError>
    ensures row { IfOk result (λ r. plain_row r ≡ is_row) }
{
    let coeffs = Numbers::from_vec(vec![in alloc; -1, 0]?);
    Ok(Row {
        constant: 0,
        coeffs,
    })
}

/// The size rows that are stated of a built-in predicate.
pub fn stated_rows(alloc: Global, kind: Builtin) -> Result<Rows, AllocError>
    ensures width { IfOk result (λ r. r.width ≡ 2) }
    ensures widths { IfOk result (λ r. HaveWidth 2 r.list) }
    ensures rows { IfOk result (λ r. plain_rows r.list ≡ stated_rows kind) }
{
    let mut rows = Rows::new(alloc, 2);
    if kind == Builtin::Is {
        rows.push(is_row(alloc)?)?;
    }
    Ok(rows)
}
