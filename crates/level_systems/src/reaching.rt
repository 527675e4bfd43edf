//! Whether a call can be reached: the test whether the rows before it are empty.

ghost use Rattle.std.specs.Prelude.{◌≡◌, ◌+◌, ◌++◌, ◌∷◌, [], false, negsuc, pos, IfOk, IfSome, OnOk, length, map, take};
ghost use Rattle.exact128.specs.Sums.{entry};
ghost use Rattle.level_systems.specs.Collected.{IsEmptiness};
ghost use Rattle.level_systems.specs.Refuted.{IsFoundPoint};
ghost use Rattle.linear_rows.specs.Plain.{HaveWidth, plain_row, plain_rows};
ghost use Rattle.linear_rows.specs.Showing.{bottom_row};
ghost use Rattle.linear_rows.specs.Solving.{zeros};
ghost use Rattle.linear_rows.specs.Systems.{at_last, test_rows};

use linear_rows::{Multipliers, Numbers, Point, Row, Rows, Solved, zeros};
use simplex::{Held, holds};
use std::alloc::{AllocError, Global};

/// What the test whether rows are empty says.
#[derive(Drop)]
pub enum Reach {
    /// The rows hold at some point.
    Live,
    /// The rows hold nowhere, as multipliers with scale 0 show.
    Empty(Multipliers),
    /// The test is blown.
    Blown,
}

/// Tests whether rows are empty.
pub fn emptiness(alloc: Global, rows: &Rows) -> Result<Reach, AllocError>
    requires { HaveWidth rows.now.width rows.now.list }
    ensures { IfOk result (IsEmptiness rows.now.width (plain_rows rows.now.list)) }
{
    let row = Row::bottom(alloc, rows.width)?;
    match &holds(alloc, rows, &row)? {
        Held::Yes(by) => Ok(Reach::Empty(Multipliers {
            scale: 0,
            list: by.list.copy(alloc)?,
        })),
        Held::No(_) => Ok(Reach::Live),
        Held::Blown => Ok(Reach::Blown),
    }
}

/// A point at which rows hold, if pivots or elimination find one.
fn point_by_pivots(alloc: Global, rows: &Rows) -> Result<Option<Point>, AllocError>
    requires { HaveWidth rows.now.width rows.now.list }
    ensures { IfOk result (λ o. IfSome o (λ point. length point.w ≡ rows.now.width)) }
{
    let row = Row::bottom(alloc, rows.width)?;
    match &holds(alloc, rows, &row)? {
        Held::No(point) => Ok(Some(Point {
            t: point.t,
            w: point.w.copy(alloc)?,
        })),
        Held::Yes(_) => Ok(None),
        Held::Blown => Ok(None),
    }
}

/// The row over one more column, the last, that has the constant of a row as this column's coefficient.
fn at_last(alloc: Global, row: &Row, constant: i128) -> Result<Row, AllocError>
    ensures { IfOk result (λ r. plain_row r ≡ at_last (plain_row row.now) constant) }
{
    let mut coeffs = row.coeffs.copy(alloc)?;
    coeffs.push(row.constant)?;
    Ok(Row { constant, coeffs })
}

/// Appends rows over one more column, which stands for the t of a point.
fn add_rows(alloc: Global, test: &mut Rows, rows: &Rows) -> Result<(), AllocError>
    requires width { test.old.width ≡ rows.now.width + 1 }
    requires test { HaveWidth test.old.width test.old.list }
    requires rows { HaveWidth rows.now.width rows.now.list }
    ensures width { test.new.width ≡ test.old.width }
    ensures test { HaveWidth test.new.width test.new.list }
    ensures rows { OnOk result (plain_rows test.new.list ≡ plain_rows test.old.list ++ map
        (λ r. at_last r (pos 0)) (plain_rows rows.now.list)) }
{
    for row in rows.list.as_slice() {
        test.push(at_last(alloc, row, 0)?)?;
    }
    Ok(())
}

/// Appends that the last column is at least 1.
fn add_last(alloc: Global, test: &mut Rows, width: u32) -> Result<(), AllocError>
    requires width { test.old.width ≡ width + 1 }
    requires test { HaveWidth test.old.width test.old.list }
    ensures width { test.new.width ≡ test.old.width }
    ensures test { HaveWidth test.new.width test.new.list }
    ensures rows { OnOk result (plain_rows test.new.list ≡ plain_rows test.old.list
        ++ (negsuc 0 ∷ (zeros width ++ pos 1 ∷ [])) ∷ []) }
{
    let mut coeffs = zeros(alloc, width as usize)?;
    coeffs.push(1)?;
    test.push(Row {
        constant: -1,
        coeffs,
    })
}

/// The rows that are solved to test whether rows are empty. That the row of constant -1 is at most -1 says once more
/// that the last column is at least 1.
fn test_of(alloc: Global, rows: &Rows) -> Result<Rows, AllocError>
    requires { HaveWidth rows.now.width rows.now.list }
    ensures width { IfOk result (λ test. test.width ≡ rows.now.width + 1) }
    ensures test { IfOk result (λ test. HaveWidth test.width test.list) }
    ensures rows { IfOk result
        (λ test. plain_rows test.list ≡ test_rows rows.now.width (plain_rows rows.now.list)
        (bottom_row rows.now.width)) }
{
    // There is no memory for that many variables.
    let Some(last) = rows.width.checked_add(1) else {
        return Err(AllocError);
    };
    let mut test = Rows::new(alloc, last);
    add_rows(alloc, &mut test, rows)?;
    add_last(alloc, &mut test, rows.width)?;
    add_last(alloc, &mut test, rows.width)?;
    Ok(test)
}

/// The point of the rows that a point of their test is.
fn last_first(point: Point, width: usize) -> Point
    ensures t { result.t ≡ entry point.w width }
    ensures w { result.w ≡ take width point.w }
{
    let t = point.w.entry(width);
    let mut items = point.w.into_vec();
    items.truncate(width);
    Point {
        t,
        w: Numbers::from_vec(items),
    }
}

/// A point at which rows hold, if elimination alone finds one.
fn point_by_elimination(alloc: Global, rows: &Rows) -> Result<Option<Point>, AllocError>
    requires { HaveWidth rows.now.width rows.now.list }
    ensures long { IfOk result (λ o. IfSome o (λ point. length point.w ≡ rows.now.width)) }
    ensures exact { IfOk result (IsFoundPoint rows.now.width (plain_rows rows.now.list)) }
{
    let test = test_of(alloc, rows)?;
    match fourier::solve_briefly(alloc, &test)? {
        Some(Solved::Point(point)) => Ok(Some(last_first(point, rows.width as usize))),
        Some(Solved::Refuted(_)) => Ok(None),
        None => Ok(None),
    }
}

/// A point at which rows hold, if the test whether they are empty finds one: by pivots first, or by elimination alone.
pub fn point_of(alloc: Global, rows: &Rows, by_pivots: bool) -> Result<Option<Point>, AllocError>
    requires { HaveWidth rows.now.width rows.now.list }
    ensures long { IfOk result (λ o. IfSome o (λ point. length point.w ≡ rows.now.width)) }
    ensures exact { by_pivots ≡ false
        → IfOk result (IsFoundPoint rows.now.width (plain_rows rows.now.list)) }
{
    if by_pivots {
        return point_by_pivots(alloc, rows);
    }
    point_by_elimination(alloc, rows)
}
