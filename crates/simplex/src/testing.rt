//! The test whether a row holds where rows hold.

ghost use Rattle.std.specs.Prelude.{◌≡◌, ◌+◌, IfOk, IfSome, length, take, true};
ghost use Rattle.exact128.specs.Fits.{fits};
ghost use Rattle.exact128.specs.Sums.{entry};
ghost use Rattle.linear_rows.specs.Blown.{all_of};
ghost use Rattle.linear_rows.specs.Plain.{plain_row, plain_rows, HaveWidth};
ghost use Rattle.linear_rows.specs.Systems.{test_rows};
ghost use Rattle.linear_rows.specs.Proves.{Refutes};
ghost use Rattle.linear_rows.specs.Decides.{Decides};
ghost use Rattle.simplex.specs.Telling.{IsTest, SaysHolds, Tells, TellsIfFits, ShowsIfFits};

use crate::basis::Basis;
use crate::cone::{Found, Outside, searched};
use crate::held::Held;
use crate::implication::Implied;
use crate::systems::test_system;
use crate::wide_multipliers::WideMultipliers;
use linear_rows::{Multipliers, Numbers, Point, Proof, Row, Rows, Solved, proves};
use std::alloc::{AllocError, Global};
use tableaux::found;

/// The multipliers of the rows and the scale of the target, if their test is in numbers that fit.
fn shown(rows: &Rows, target: &Row, by: Multipliers) -> Option<Multipliers>
    requires width { HaveWidth rows.now.width rows.now.list }
    requires target { length target.now.coeffs ≡ rows.now.width }
    requires fits { all_of fits (plain_row target.now) ≡ true }
    requires refutes { Refutes (rows.now.width + 1)
        (test_rows rows.now.width (plain_rows rows.now.list) (plain_row target.now)) by.list }
    ensures { ShowsIfFits (plain_rows rows.now.list) (plain_row target.now) by.list result }
{
    let many = rows.list.len();
    let scale = by.list.entry(many + 1);
    let mut items = by.list.into_vec();
    items.truncate(many);
    match proves(rows, items.as_slice(), target, scale) {
        Proof::Holds => Some(Multipliers {
            scale,
            list: Numbers::from_vec(items),
        }),
        Proof::Fails => None,
        Proof::Wide => None,
    }
}

/// The point of the rows at which the target fails.
fn failing(point: Point, width: usize) -> Point
    ensures t { result.t ≡ entry point.w width }
    ensures w { result.w ≡ take width point.w }
{
    let t = point.w.entry(width);
    let mut items = point.w.into_vec();
    items.truncate(width);
    Point {
        t,
        w: Numbers::from_vec(items),
    }
}

/// What the solution of the rows of a test says, unless the multipliers are not tested in numbers that fit.
fn held(rows: &Rows, row: &Row, solved: Solved) -> Option<Held>
    requires width { HaveWidth rows.now.width rows.now.list }
    requires row { length row.now.coeffs ≡ rows.now.width }
    requires fits { all_of fits (plain_row row.now) ≡ true }
    requires solves { Decides (rows.now.width + 1)
        (test_rows rows.now.width (plain_rows rows.now.list) (plain_row row.now)) solved }
    ensures { TellsIfFits rows.now.width (plain_rows rows.now.list)
        (plain_row row.now) solved result }
{
    match solved {
        Solved::Point(point) => Some(Held::No(failing(point, rows.width as usize))),
        Solved::Refuted(by) => match shown(rows, row, by) {
            Some(by) => Some(Held::Yes(by)),
            None => None,
        },
    }
}

/// What pivots tell, if they tell something.
fn by_pivots(
    alloc: Global,
    rows: &Rows,
    row: &Row,
    system: &Rows,
) -> Result<Option<Held>, AllocError>
    requires width { HaveWidth rows.now.width rows.now.list }
    requires row { length row.now.coeffs ≡ rows.now.width }
    requires test { IsTest rows.now row.now system.now }
    ensures { IfOk result (λ o. IfSome o
        (Tells rows.now.width (plain_rows rows.now.list) (plain_row row.now))) }
{
    match found(alloc, system)? {
        Some(solved) => Ok(held(rows, row, solved)),
        None => Ok(None),
    }
}

/// What elimination answers.
fn by_elimination(alloc: Global, rows: &Rows, row: &Row, system: &Rows) -> Result<Held, AllocError>
    requires width { HaveWidth rows.now.width rows.now.list }
    requires row { length row.now.coeffs ≡ rows.now.width }
    requires test { IsTest rows.now row.now system.now }
    ensures { IfOk result (Tells rows.now.width (plain_rows rows.now.list) (plain_row row.now)) }
{
    match fourier::solve_briefly(alloc, system)? {
        Some(solved) => match held(rows, row, solved) {
            Some(held) => Ok(held),
            None => Ok(Held::Blown),
        },
        None => Ok(Held::Blown),
    }
}

/// Tests whether a row holds wherever rows hold.
///
/// The rows, with the one that is tested at most -1, are solved over one more variable, which stands for the t of a
/// point. Blown comes only where elimination is blown on them, or where the multipliers that it finds are not tested in
/// numbers that fit.
pub fn holds(alloc: Global, rows: &Rows, row: &Row) -> Result<Held, AllocError>
    requires rows { HaveWidth rows.now.width rows.now.list }
    requires row { length row.now.coeffs ≡ rows.now.width }

    // Yes with multipliers that show the row, No with a point at which it fails, and Blown only where its test is.
    ensures { IfOk result (Tells rows.now.width (plain_rows rows.now.list) (plain_row row.now)) }
{
    let Some(system) = test_system(alloc, rows, row)? else {
        return Ok(Held::Blown);
    };
    match by_pivots(alloc, rows, row, &system)? {
        Some(held) => Ok(held),
        None => by_elimination(alloc, rows, row, &system),
    }
}

/// Says whether rows imply a row, and begins at the basis where another search ended.
///
/// What the search in the cone finds is tested in 768 bits. Where it finds nothing, it begins with the units the next
/// time.
pub fn implied(
    alloc: Global,
    rows: &Rows,
    row: &Row,
    basis: &mut Basis,
) -> Result<Implied, AllocError>
    requires rows { HaveWidth rows.now.width rows.now.list }
    requires row { length row.now.coeffs ≡ rows.now.width }

    // After Yes the row holds on the rows, and after No it fails at a point of them.
    ensures { IfOk result (SaysHolds rows.now.width (plain_rows rows.now.list) (plain_row row.now)) }
{
    let says = match searched(alloc, rows, row, basis)? {
        Found::Multipliers(by) => shown_by(alloc, rows, row, &by)?,
        Found::Outside(outside) => said_outside(alloc, rows, row, outside)?,
        Found::Nothing => Implied::Open,
    };
    if let Implied::Open = &says {
        basis.reset();
    }
    Ok(says)
}

/// What multipliers say.
fn shown_by(
    alloc: Global,
    rows: &Rows,
    row: &Row,
    by: &WideMultipliers,
) -> Result<Implied, AllocError>
    requires rows { HaveWidth rows.now.width rows.now.list }
    requires row { length row.now.coeffs ≡ rows.now.width }
    ensures { IfOk result (SaysHolds rows.now.width (plain_rows rows.now.list) (plain_row row.now)) }
{
    if by.show(alloc, rows, row)? {
        Ok(Implied::Yes)
    } else {
        Ok(Implied::Open)
    }
}

/// What a point says where the row was found to fail.
fn said_outside(
    alloc: Global,
    rows: &Rows,
    row: &Row,
    outside: Outside,
) -> Result<Implied, AllocError>
    requires rows { HaveWidth rows.now.width rows.now.list }
    requires row { length row.now.coeffs ≡ rows.now.width }
    ensures { IfOk result (SaysHolds rows.now.width (plain_rows rows.now.list) (plain_row row.now)) }
{
    let Outside { near, whole } = outside;
    if whole.refutes(alloc, rows, row)? {
        Ok(Implied::No(near))
    } else {
        Ok(Implied::Unsure(near))
    }
}
