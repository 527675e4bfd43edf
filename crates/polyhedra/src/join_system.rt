//! The rows of a join's system: y obeys the first list scaled by s, and x - y the second scaled by 1 - s.

ghost use Rattle.std.specs.Prelude.{◌≡◌, ◌+◌, ◌++◌, ◌∷◌, ◌<◌, ◌^◌, [], pos, negsuc, neg_ℤ, IfOk, OnOk, All, length, map};
ghost use Rattle.exact128.specs.Sums.{entry};
ghost use Rattle.linear_rows.specs.Plain.{HaveWidth, plain_row, plain_rows};
ghost use Rattle.linear_rows.specs.Solving.{zeros, units};
ghost use Rattle.linear_rows.specs.Systems.{naturals, differences, in_first, in_second, join_rows, opposite};
ghost use Rattle.redundant_rows.specs.Negating.{IsNegatable};
ghost use Rattle.polyhedra.specs.PolyLaws.{HaveFit};

use crate::image_system::push_naturals;
use linear_rows::{Numbers, Row, Rows};
use redundant_rows::{opposite_of, push_all, push_alone, push_opposite, push_zeros};
use std::alloc::{AllocError, Global};

/// The rows of a join's system. Its columns are x and y, of one column for each argument, and s.
pub(crate) fn join_system(
    alloc: Global,
    first: &Rows,
    second: &Rows,
    width: u32,
) -> Result<Rows, AllocError>
    requires width { width ≡ first.now.width + first.now.width + 1 }
    requires same { second.now.width ≡ first.now.width }
    requires first { HaveWidth first.now.width first.now.list }
    requires second { HaveWidth second.now.width second.now.list }
    requires fit { HaveFit second.now.list }
    ensures width { IfOk result (λ r. r.width ≡ width) }
    ensures widths { IfOk result (λ r. HaveWidth width r.list) }
    ensures rows { IfOk result
        (λ r. plain_rows r.list ≡ join_rows first.now.width (plain_rows first.now.list)
        (plain_rows second.now.list)) }
{
    let arity = first.width as usize;
    let mut rows = Rows::new(alloc, width);
    push_shares(alloc, &mut rows, arity)?;
    push_columns(alloc, &mut rows, arity)?;
    push_lists(alloc, &mut rows, first, second)?;
    Ok(rows)
}

/// Appends rows that say that s is at least 0 and at most 1.
fn push_shares(alloc: Global, rows: &mut Rows, arity: usize) -> Result<(), AllocError>
    requires few { arity < 2 ^ 32 }
    requires room { rows.old.width ≡ arity + arity + 1 }
    requires widths { HaveWidth rows.old.width rows.old.list }
    ensures width { rows.new.width ≡ rows.old.width }
    ensures widths { HaveWidth rows.old.width rows.new.list }
    ensures rows { OnOk result (plain_rows rows.new.list ≡ plain_rows rows.old.list
        ++ (pos 0 ∷ (zeros (arity + arity) ++ pos 1 ∷ []))
        ∷ (pos 1 ∷ (zeros (arity + arity) ++ negsuc 0 ∷ [])) ∷ []) }
{
    rows.push(share_row(alloc, 0, arity, 1)?)?;
    rows.push(share_row(alloc, 1, arity, -1)?)
}

/// The row of a constant and of one number in the column of s.
fn share_row(alloc: Global, constant: i128, arity: usize, number: i128) -> Result<Row, AllocError>
    requires { arity < 2 ^ 32 }
    ensures row { IfOk result
        (λ r. plain_row r ≡ constant ∷ (zeros (arity + arity) ++ number ∷ [])) }
    ensures width { IfOk result (λ r. length r.coeffs ≡ arity + arity + 1) }
{
    let mut coeffs = Numbers::new(alloc);
    push_zeros(&mut coeffs, arity + arity)?;
    coeffs.push(number)?;
    Ok(Row { constant, coeffs })
}

/// Appends rows that say that each y and each x - y is at least 0.
fn push_columns(alloc: Global, rows: &mut Rows, arity: usize) -> Result<(), AllocError>
    requires room { rows.old.width ≡ arity + arity + 1 }
    requires widths { HaveWidth rows.old.width rows.old.list }
    ensures width { rows.new.width ≡ rows.old.width }
    ensures widths { HaveWidth rows.old.width rows.new.list }
    ensures rows { OnOk result (plain_rows rows.new.list ≡ plain_rows rows.old.list
        ++ naturals arity arity (arity + arity + 1) ++ differences arity arity 0) }
{
    push_naturals(alloc, rows, arity, arity)?;
    for i in 0..arity {
        rows.push(difference_row(alloc, i, arity)?)?;
    }
    Ok(())
}

/// The row that says that x - y is at least 0 at a place.
fn difference_row(alloc: Global, place: usize, arity: usize) -> Result<Row, AllocError>
    requires { place < arity }
    ensures row { IfOk result
        (λ r. plain_row r ≡ pos 0 ∷ (units arity place ++ opposite (units arity place) ++ pos 0
        ∷ [])) }
    ensures width { IfOk result (λ r. length r.coeffs ≡ arity + arity + 1) }
{
    let after = arity - place - 1;
    let mut coeffs = Numbers::new(alloc);
    push_alone(&mut coeffs, place, 1, after)?;
    push_alone(&mut coeffs, place, -1, after)?;
    coeffs.push(0)?;
    Ok(Row {
        constant: 0,
        coeffs,
    })
}

/// Appends the first list's rows in y, and the second's in x - y.
fn push_lists(alloc: Global, rows: &mut Rows, first: &Rows, second: &Rows) -> Result<(), AllocError>
    requires room { rows.old.width ≡ first.now.width + first.now.width + 1 }
    requires same { second.now.width ≡ first.now.width }
    requires first { HaveWidth first.now.width first.now.list }
    requires second { HaveWidth second.now.width second.now.list }
    requires fit { HaveFit second.now.list }
    requires widths { HaveWidth rows.old.width rows.old.list }
    ensures width { rows.new.width ≡ rows.old.width }
    ensures widths { HaveWidth rows.old.width rows.new.list }
    ensures rows { OnOk result (plain_rows rows.new.list ≡ plain_rows rows.old.list
        ++ map (in_first first.now.width) (plain_rows first.now.list) ++ map in_second
        (plain_rows second.now.list)) }
{
    push_first(alloc, rows, first)?;
    push_second(alloc, rows, second)
}

/// Appends rows in y, each with its constant times s.
fn push_first(alloc: Global, rows: &mut Rows, first: &Rows) -> Result<(), AllocError>
    requires room { rows.old.width ≡ first.now.width + first.now.width + 1 }
    requires first { HaveWidth first.now.width first.now.list }
    requires widths { HaveWidth rows.old.width rows.old.list }
    ensures width { rows.new.width ≡ rows.old.width }
    ensures widths { HaveWidth rows.old.width rows.new.list }
    ensures rows { OnOk result (plain_rows rows.new.list ≡ plain_rows rows.old.list
        ++ map (in_first first.now.width) (plain_rows first.now.list)) }
{
    let arity = first.width as usize;
    for row in first.list.as_slice() {
        rows.push(first_row(alloc, arity, row)?)?;
    }
    Ok(())
}

/// A row in y, with its constant times s.
fn first_row(alloc: Global, arity: usize, row: &Row) -> Result<Row, AllocError>
    ensures row { IfOk result (λ r. plain_row r ≡ in_first arity (plain_row row.now)) }
    ensures width { IfOk result (λ r. length r.coeffs ≡ arity + length row.now.coeffs + 1) }
{
    let mut coeffs = Numbers::new(alloc);
    push_zeros(&mut coeffs, arity)?;
    push_all(&mut coeffs, &row.coeffs)?;
    coeffs.push(row.constant)?;
    Ok(Row {
        constant: 0,
        coeffs,
    })
}

/// Appends rows in x - y, each with its constant times 1 - s.
fn push_second(alloc: Global, rows: &mut Rows, second: &Rows) -> Result<(), AllocError>
    requires room { rows.old.width ≡ second.now.width + second.now.width + 1 }
    requires second { HaveWidth second.now.width second.now.list }
    requires fit { HaveFit second.now.list }
    requires widths { HaveWidth rows.old.width rows.old.list }
    ensures width { rows.new.width ≡ rows.old.width }
    ensures widths { HaveWidth rows.old.width rows.new.list }
    ensures rows { OnOk result (plain_rows rows.new.list ≡ plain_rows rows.old.list ++ map in_second
        (plain_rows second.now.list)) }
{
    for row in second.list.as_slice() {
        rows.push(second_row(alloc, row)?)?;
    }
    Ok(())
}

/// A row in x - y, with its constant times 1 - s.
fn second_row(alloc: Global, row: &Row) -> Result<Row, AllocError>
    requires { All IsNegatable (plain_row row.now) }
    ensures row { IfOk result (λ r. plain_row r ≡ in_second (plain_row row.now)) }
    ensures width { IfOk result
        (λ r. length r.coeffs ≡ length row.now.coeffs + length row.now.coeffs + 1) }
{
    let mut coeffs = Numbers::new(alloc);
    push_all(&mut coeffs, &row.coeffs)?;
    push_opposite(&mut coeffs, &row.coeffs)?;
    coeffs.push(opposite_of(row.constant))?;
    Ok(Row {
        constant: row.constant,
        coeffs,
    })
}
