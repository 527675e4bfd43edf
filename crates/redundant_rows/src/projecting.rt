//! Rows over the first columns, where the others are eliminated.

ghost use Rattle.std.specs.Prelude.{◌≡◌, ◌+◌, ◌≤◌, suc, IfOk, length, map, take};
ghost use Rattle.linear_rows.specs.Plain.{plain_row, plain_rows, HaveWidth};
ghost use Rattle.redundant_rows.specs.Choosing.{IsCore};
ghost use Rattle.redundant_rows.specs.Projecting.{IsProjected};

use crate::hints::Hints;
use crate::inserting::inserted;
use crate::sweeping::irredundant;
use crate::undominated::undominated;
use fourier::{ElimFault, eliminate_all};
use linear_rows::{Numbers, Point, Row, Rows};
use std::alloc::{AllocError, Global};

/// The first numbers of a row.
fn cut_row(alloc: Global, row: &Row, kept: usize) -> Result<Row, AllocError>
    requires { kept ≤ length row.now.coeffs }
    ensures row { IfOk result (λ r. plain_row r ≡ take (suc kept) (plain_row row.now)) }
    ensures width { IfOk result (λ r. length r.coeffs ≡ kept) }
{
    let mut items = row.coeffs.copy(alloc)?.into_vec();
    items.truncate(kept);
    Ok(Row {
        constant: row.constant,
        coeffs: Numbers::from_vec(items),
    })
}

/// The rows over the first columns.
fn cut(alloc: Global, rows: &Rows, kept: u32) -> Result<Rows, AllocError>
    requires kept { kept ≤ rows.now.width }
    requires width { HaveWidth rows.now.width rows.now.list }
    ensures rows { IfOk result
        (λ r. plain_rows r.list ≡ map (take (suc kept)) (plain_rows rows.now.list)) }
    ensures width { IfOk result (λ r. r.width ≡ kept) }
    ensures widths { IfOk result (λ r. HaveWidth kept r.list) }
{
    let mut all = Rows::new(alloc, kept);
    for row in rows.list.as_slice() {
        all.push(cut_row(alloc, row, kept as usize)?)?;
    }
    Ok(all)
}

/// An irredundant part of rows, on which each of them holds.
fn core(alloc: Global, rows: Rows, inside: &Option<Point>) -> Result<Rows, AllocError>
    requires { HaveWidth rows.width rows.list }
    ensures width { IfOk result (λ r. r.width ≡ rows.width) }
    ensures widths { IfOk result (λ r. HaveWidth rows.width r.list) }
    ensures core { IfOk result (λ r. IsCore rows.width (plain_rows rows.list) (plain_rows r.list)) }
{
    let few = undominated(alloc, rows)?;
    let mut hints = Hints::new(alloc, &few, inside)?;
    let fewer = inserted(alloc, &few, &mut hints)?;
    irredundant(alloc, fewer, &mut hints)
}

/// An irredundant part of the rows that the elimination of the last columns leaves, or none where it is blown.
///
/// The first `kept` columns stay, and the last `count` are eliminated. `inside` is a hint, which may be wrong: a point
/// of the rows that are left.
pub fn projected(
    alloc: Global,
    rows: &Rows,
    kept: u32,
    count: u32,
    inside: &Option<Point>,
) -> Result<Option<Rows>, AllocError>
    requires columns { rows.now.width ≡ kept + count }
    requires width { HaveWidth rows.now.width rows.now.list }
    ensures { IfOk result (IsProjected kept count (plain_rows rows.now.list)) }
{
    match eliminate_all(alloc, rows, kept, count) {
        Ok(left) => {
            let short = cut(alloc, &left, kept)?;
            Ok(Some(core(alloc, short, inside)?))
        }
        Err(ElimFault::Blown { .. }) => Ok(None),
        Err(ElimFault::Memory) => Err(AllocError),
    }
}
