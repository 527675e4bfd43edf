//! Rows as lists of numbers, and back.

ghost use Rattle.std.specs.Prelude.{◌≡◌, ◌≤◌, ◌<◌, ◌+◌, IfOk, length};
ghost use Rattle.linear_rows.specs.Plain.{plain_row, plain_rows, HaveWidth};
ghost use Rattle.sparse_rows.specs.Adding.{AllLong};

use crate::line::Line;
use crate::lines::Lines;
use linear_rows::{Numbers, Row, Rows};
use std::alloc::{AllocError, Global};

/// The rows, each with its constant first.
pub fn lines_of(alloc: Global, rows: &Rows) -> Result<Lines, AllocError>
    ensures { IfOk result (λ lines. lines ≡ plain_rows rows.now.list) }
{
    let mut lines = Lines::marked(alloc, rows.width as usize);
    for i in 0..rows.list.len() {
        let line = line_of(alloc, rows.list.get(i))?;
        lines.push(line)?;
    }
    Ok(lines)
}

/// A row with its constant first.
fn line_of(alloc: Global, row: &Row) -> Result<Line, AllocError>
    ensures { IfOk result (λ line. line ≡ plain_row row.now) }
{
    let mut line = Line::new(alloc);
    line.push(row.constant)?;
    for k in 0..row.coeffs.len() {
        line.push(row.coeffs.entry(k))?;
    }
    Ok(line)
}

/// Rows of a width, from lists of numbers with the constant first.
pub fn rows_of(alloc: Global, lines: &Lines, width: u32) -> Result<Rows, AllocError>
    requires { AllLong (width + 1) lines.now }
    ensures rows { IfOk result (λ rows. plain_rows rows.list ≡ lines.now) }
    ensures width { IfOk result (λ rows. rows.width ≡ width) }
    ensures long { IfOk result (λ rows. HaveWidth rows.width rows.list) }
{
    let mut rows = Rows::new(alloc, width);
    for i in 0..lines.len() {
        let row = row_of(alloc, lines.get(i))?;
        rows.push(row)?;
    }
    Ok(rows)
}

/// A row, from its numbers with the constant first.
fn row_of(alloc: Global, line: &Line) -> Result<Row, AllocError>
    requires { 0 < length line.now }
    ensures { IfOk result (λ row. plain_row row ≡ line.now) }
{
    let mut coeffs = Numbers::new(alloc);
    for k in 1..line.len() {
        coeffs.push(line.entry(k))?;
    }
    Ok(Row {
        constant: line.entry(0),
        coeffs,
    })
}
