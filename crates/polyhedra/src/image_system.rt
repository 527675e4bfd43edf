//! The rows of an image's system: the variables are naturals, the head's arguments equal their size expressions, and
//! the body's rows hold.

ghost use Rattle.std.specs.Prelude.{◌≡◌, ◌+◌, ◌≤◌, ◌<◌, ◌++◌, ◌∷◌, pos, ◌≤ℤ◌, IfOk, OnOk, All, length, map};
ghost use Rattle.linear_rows.specs.Plain.{HaveWidth, plain_row, plain_rows};
ghost use Rattle.linear_rows.specs.Solving.{units};
ghost use Rattle.linear_rows.specs.Systems.{naturals, difference, opposite, equalities, over_variables, image_rows};
ghost use Rattle.polyhedra.specs.Making.{arity_of};
ghost use Rattle.redundant_rows.specs.Negating.{IsNegatable};
ghost use Rattle.polyhedra.specs.Telling.{IsSystem, HasNaturalHead};

use linear_rows::{Numbers, Row, Rows, System};
use redundant_rows::{opposite_of, push_all, push_alone, push_opposite, push_zeros};
use std::alloc::{AllocError, Global};

/// The rows of an image's system. Its columns are the head's arguments and then the variables.
pub(crate) fn image_system(
    alloc: Global,
    system: &System,
    arity: u32,
    width: u32,
) -> Result<Rows, AllocError>
    requires system { IsSystem system.now }
    requires head { HasNaturalHead system.now }
    requires arity { arity ≡ arity_of system.now }
    requires width { width ≡ arity + system.now.variables }
    ensures width { IfOk result (λ r. r.width ≡ width) }
    ensures widths { IfOk result (λ r. HaveWidth width r.list) }
    ensures rows { IfOk result
        (λ r. plain_rows r.list ≡ image_rows system.now.variables (plain_rows system.now.head.list)
        (plain_rows system.now.rows.list)) }
{
    let mut rows = Rows::new(alloc, width);
    push_naturals(alloc, &mut rows, system.variables as usize, arity as usize)?;
    push_equalities(alloc, &mut rows, &system.head, arity as usize)?;
    push_body(alloc, &mut rows, &system.rows, arity as usize)?;
    Ok(rows)
}

/// Appends rows that say that the given number of columns, from one on, are at least 0.
pub(crate) fn push_naturals(
    alloc: Global,
    rows: &mut Rows,
    count: usize,
    from: usize,
) -> Result<(), AllocError>
    requires room { from + count ≤ rows.old.width }
    requires widths { HaveWidth rows.old.width rows.old.list }
    ensures width { rows.new.width ≡ rows.old.width }
    ensures widths { HaveWidth rows.old.width rows.new.list }
    ensures rows { OnOk result (plain_rows rows.new.list ≡ plain_rows rows.old.list
        ++ naturals count from rows.old.width) }
{
    let width = rows.width as usize;
    for i in 0..count {
        rows.push(natural_row(alloc, from + i, width)?)?;
    }
    Ok(())
}

/// The row that says that one of the given number of columns is at least 0.
fn natural_row(alloc: Global, place: usize, width: usize) -> Result<Row, AllocError>
    requires { place < width }
    ensures row { IfOk result (λ r. plain_row r ≡ pos 0 ∷ units width place) }
    ensures width { IfOk result (λ r. length r.coeffs ≡ width) }
{
    let mut coeffs = Numbers::new(alloc);
    push_alone(&mut coeffs, place, 1, width - place - 1)?;
    Ok(Row {
        constant: 0,
        coeffs,
    })
}

/// Appends two rows for each argument: it is at least its expression, and at most it.
fn push_equalities(
    alloc: Global,
    rows: &mut Rows,
    head: &Rows,
    arity: usize,
) -> Result<(), AllocError>
    requires arity { arity ≡ length head.now.list }
    requires room { rows.old.width ≡ arity + head.now.width }
    requires head { HaveWidth head.now.width head.now.list }
    requires natural { All (λ r. All (λ x. pos 0 ≤ℤ x) r) (plain_rows head.now.list) }
    requires widths { HaveWidth rows.old.width rows.old.list }
    ensures width { rows.new.width ≡ rows.old.width }
    ensures widths { HaveWidth rows.old.width rows.new.list }
    ensures rows { OnOk result (plain_rows rows.new.list ≡ plain_rows rows.old.list
        ++ equalities arity 0 (plain_rows head.now.list)) }
{
    for i in 0..head.list.len() {
        let expression = head.list.get(i);
        rows.push(at_least(alloc, arity, i, expression)?)?;
        rows.push(at_most(alloc, arity, i, expression)?)?;
    }
    Ok(())
}

/// The row that says that an argument is at least its expression.
fn at_least(alloc: Global, arity: usize, place: usize, expression: &Row) -> Result<Row, AllocError>
    requires place { place < arity }
    requires numbers { All IsNegatable (plain_row expression.now) }
    ensures row { IfOk result
        (λ r. plain_row r ≡ difference arity place (plain_row expression.now)) }
    ensures width { IfOk result (λ r. length r.coeffs ≡ arity + length expression.now.coeffs) }
{
    let mut coeffs = Numbers::new(alloc);
    push_alone(&mut coeffs, place, 1, arity - place - 1)?;
    push_opposite(&mut coeffs, &expression.coeffs)?;
    Ok(Row {
        constant: opposite_of(expression.constant),
        coeffs,
    })
}

/// The row that says that an argument is at most its expression.
fn at_most(alloc: Global, arity: usize, place: usize, expression: &Row) -> Result<Row, AllocError>
    requires place { place < arity }
    ensures row { IfOk result
        (λ r. plain_row r ≡ opposite (difference arity place (plain_row expression.now))) }
    ensures width { IfOk result (λ r. length r.coeffs ≡ arity + length expression.now.coeffs) }
{
    let mut coeffs = Numbers::new(alloc);
    push_alone(&mut coeffs, place, -1, arity - place - 1)?;
    push_all(&mut coeffs, &expression.coeffs)?;
    Ok(Row {
        constant: expression.constant,
        coeffs,
    })
}

/// Appends the body's rows, each with a place for each argument.
fn push_body(alloc: Global, rows: &mut Rows, body: &Rows, arity: usize) -> Result<(), AllocError>
    requires room { rows.old.width ≡ arity + body.now.width }
    requires body { HaveWidth body.now.width body.now.list }
    requires widths { HaveWidth rows.old.width rows.old.list }
    ensures width { rows.new.width ≡ rows.old.width }
    ensures widths { HaveWidth rows.old.width rows.new.list }
    ensures rows { OnOk result (plain_rows rows.new.list ≡ plain_rows rows.old.list
        ++ map (over_variables arity) (plain_rows body.now.list)) }
{
    for row in body.list.as_slice() {
        rows.push(behind_arguments(alloc, arity, row)?)?;
    }
    Ok(())
}

/// A row over the variables, with a place for each argument.
fn behind_arguments(alloc: Global, arity: usize, row: &Row) -> Result<Row, AllocError>
    ensures row { IfOk result (λ r. plain_row r ≡ over_variables arity (plain_row row.now)) }
    ensures width { IfOk result (λ r. length r.coeffs ≡ arity + length row.now.coeffs) }
{
    let mut coeffs = Numbers::new(alloc);
    push_zeros(&mut coeffs, arity)?;
    push_all(&mut coeffs, &row.coeffs)?;
    Ok(Row {
        constant: row.constant,
        coeffs,
    })
}
