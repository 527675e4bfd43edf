//! The rows that are solved: variables of at least 0, t of at least 1, and the given rows, each with its multiplier.

ghost use Rattle.std.specs.Prelude.{◌≡◌, pos, ◌∷◌, ◌++◌, ◌+◌, ◌<◌, ◌^◌, length, IfOk, OnOk, [], suc};
ghost use Rattle.linear_rows.specs.Plain.{plain_row, plain_rows};
ghost use Rattle.linear_rows.specs.Solving.{units, floors, carried, start_rows};

use linear_rows::{Row, Rows};
use sparse_rows::{Line, Lines};
use std::alloc::{AllocError, Global};

/// The rows that are solved for given rows.
///
/// Columns: the constant, the variables, t, and one for each given row.
pub fn start_rows(alloc: Global, rows: &Rows) -> Result<Lines, AllocError>
    ensures { IfOk result (λ lines. lines ≡ start_rows rows.now.width (plain_rows rows.now.list)) }
{
    let width = rows.width as usize;
    let many = rows.list.len();
    let mut lines = Lines::marked(alloc, width + 1);
    push_floors(alloc, &mut lines, width, many)?;
    lines.push(unit_line(alloc, -1, width + 1, width, many)?)?;
    push_given(alloc, &mut lines, rows)?;
    Ok(lines)
}

/// Appends rows that say that each variable is at least 0.
fn push_floors(
    alloc: Global,
    lines: &mut Lines,
    count: usize,
    many: usize,
) -> Result<(), AllocError>
    requires { count < 2 ^ 32 }
    ensures { OnOk result (lines.new ≡ lines.old ++ floors count 0 (count + 1 + many)) }
{
    for i in 0..count {
        lines.push(unit_line(alloc, 0, count + 1, i, many)?)?;
    }
    Ok(())
}

/// Appends the given rows, each with its constant as the coefficient of t and the multiplier 1 of itself.
fn push_given(alloc: Global, lines: &mut Lines, rows: &Rows) -> Result<(), AllocError>
    ensures { OnOk result (lines.new ≡ lines.old ++ carried (length rows.now.list) 0
        (plain_rows rows.now.list)) }
{
    let many = rows.list.len();
    for i in 0..many {
        lines.push(given_line(alloc, rows.list.get(i), many, i)?)?;
    }
    Ok(())
}

/// A row of a constant, of 1 at one of the given number of places, and of the given number of multipliers 0.
fn unit_line(
    alloc: Global,
    constant: i128,
    count: usize,
    place: usize,
    many: usize,
) -> Result<Line, AllocError>
    requires { place < count }
    ensures { IfOk result (λ line. line ≡ constant ∷ units (count + many) place) }
{
    let mut line = Line::new(alloc);
    line.push(constant)?;
    push_units(&mut line, count, place)?;
    line.push_zeros(many)?;
    Ok(line)
}

/// A given row, at a place of the given number.
fn given_line(alloc: Global, row: &Row, many: usize, place: usize) -> Result<Line, AllocError>
    requires { place < many }
    ensures { IfOk result (λ line. line
        ≡ pos 0 ∷ (row.now.coeffs ++ row.now.constant ∷ units many place)) }
{
    let mut line = Line::new(alloc);
    line.push(0)?;
    for k in 0..row.coeffs.len() {
        line.push(row.coeffs.entry(k))?;
    }
    line.push(row.constant)?;
    push_units(&mut line, many, place)?;
    Ok(line)
}

/// Appends the given number of numbers, 1 at a place and else 0.
fn push_units(line: &mut Line, long: usize, place: usize) -> Result<(), AllocError>
    requires { place < long }
    ensures { OnOk result (line.new ≡ line.old ++ units long place) }
{
    line.push_zeros(place)?;
    line.push(1)?;
    line.push_zeros(long - place - 1)?;
    Ok(())
}
