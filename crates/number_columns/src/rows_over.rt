//! Rows over columns, with the columns' rows over the numbers of variables in their places.

ghost use Rattle.std.specs.Prelude.{◌≡◌, ◌∷◌, [], IfOk, length, map};
ghost use Rattle.linear_rows.specs.Plain.{plain_row, plain_rows};
ghost use Rattle.linear_rows.specs.Replacing.{AreColumns};
ghost use Rattle.termination_model.specs.columns.ColumnRows.{lacks, or_zeros, row_over};
ghost use Rattle.number_columns.specs.ColumnLists.{HaveLength, IsRowOver, plain_column, plain_columns};

use linear_rows::{Numbers, Row, Rows, zeros};
use std::alloc::{AllocError, Global};
use termination_model::{columns, replaced};

/// What a row over columns is over the numbers of variables.
#[derive(Drop)]
pub enum RowOver {
    /// A row whose numbers all fit.
    There(Row),

    /// There is no row: a number other than 0 stands at a column that is not there.
    Missing,

    /// A number of the row does not fit.
    Wide,
}

/// The row of zeros.
pub(crate) fn zero_row(alloc: Global, width: u32) -> Result<Row, AllocError>
    ensures { IfOk result (λ r. plain_row r ≡ or_zeros width None) }
{
    let coeffs = zeros(alloc, width as usize)?;
    Ok(Row {
        constant: 0,
        coeffs,
    })
}

/// The row of a column, and zeros where it is not there.
fn row_or_zeros(alloc: Global, column: &Option<Row>, width: u32) -> Result<Row, AllocError>
    ensures { IfOk result (λ r. plain_row r ≡ or_zeros width (plain_column column.now)) }
{
    match column {
        Some(row) => row.copy(alloc),
        None => zero_row(alloc, width),
    }
}

/// The rows of columns, with zeros in the place of one that is not there.
fn filled(alloc: Global, list: &[Option<Row>], width: u32) -> Result<Rows, AllocError>
    requires { HaveLength width (plain_columns list.now) }
    ensures width { IfOk result (λ r. r.width ≡ width) }
    ensures rows { IfOk result (λ r. plain_rows r.list ≡ map (or_zeros width) (plain_columns list.now)) }
{
    let mut rows = Rows::new(alloc, width);
    for i in 0..list.len() {
        rows.push(row_or_zeros(alloc, &list[i], width)?)?;
    }
    Ok(rows)
}

/// The numbers of columns by what they stand at: the constants first, then those of each number of the variables.
pub(crate) fn by_number(
    alloc: Global,
    list: &[Option<Row>],
    width: u32,
) -> Result<Vec<Numbers>, AllocError>
    requires { HaveLength width (plain_columns list.now) }
    ensures { IfOk result
        (λ numbers. AreColumns (map (or_zeros width) (plain_columns list.now)) width numbers.items) }
{
    let rows = filled(alloc, list, width)?;
    columns(alloc, &rows)
}

/// Whether a number is not 0, and the column at which it stands is not there.
fn lacks_one(number: i128, column: &Option<Row>) -> bool
    ensures { result ≡ lacks (number ∷ []) (plain_column column.now ∷ []) }
{
    match column {
        Some(_) => false,
        None => number != 0,
    }
}

/// Whether a number other than 0 stands at a column that is not there.
fn lacks(row: &[i128], list: &[Option<Row>]) -> bool
    requires { length row.now ≡ length list.now }
    ensures { result ≡ lacks row.now (plain_columns list.now) }
{
    for i in 0..list.len() {
        if lacks_one(row[i], &list[i]) {
            return true;
        }
    }
    false
}

/// A row over columns, by the numbers of these.
pub(crate) fn row_by_number(
    alloc: Global,
    row: &Row,
    list: &[Option<Row>],
    numbers: &[Numbers],
    width: u32,
) -> Result<RowOver, AllocError>
    requires same { length row.now.coeffs ≡ length list.now }
    requires lengths { HaveLength width (plain_columns list.now) }
    requires numbers { AreColumns (map (or_zeros width) (plain_columns list.now)) width numbers.now }
    ensures { IfOk result (IsRowOver (row_over width (plain_columns list.now) (plain_row row.now))) }
{
    if lacks(row.coeffs.as_slice(), list) {
        return Ok(RowOver::Missing);
    }
    let own = row.numbers(alloc)?;
    match replaced(alloc, own.as_slice(), numbers)? {
        Some(row) => Ok(RowOver::There(row)),
        None => Ok(RowOver::Wide),
    }
}

/// A row over columns, over the numbers of variables, of which there are `width` together.
pub fn row_over(
    alloc: Global,
    row: &Row,
    list: &[Option<Row>],
    width: u32,
) -> Result<RowOver, AllocError>
    requires same { length row.now.coeffs ≡ length list.now }
    requires lengths { HaveLength width (plain_columns list.now) }
    ensures { IfOk result (IsRowOver (row_over width (plain_columns list.now) (plain_row row.now))) }
{
    let numbers = by_number(alloc, list, width)?;
    row_by_number(alloc, row, list, numbers.as_slice(), width)
}
