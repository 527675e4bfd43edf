//! Answers to the test of a row that need no solving.

ghost use Rattle.std.specs.Prelude.{◌≡◌, ◌≤ℤ◌, ◌<◌, pos, IfOk, IfSome, All, length, true};
ghost use Rattle.exact128.specs.Fits.{fits};
ghost use Rattle.linear_rows.specs.Blown.{all_of};
ghost use Rattle.linear_rows.specs.Plain.{plain_row, plain_rows, HaveWidth};
ghost use Rattle.linear_rows.specs.Showing.{AreMultipliers, Shows, FailsAt};
ghost use Rattle.simplex.specs.Telling.{SaysHolds, Tells};
ghost use Rattle.redundant_rows.specs.Sweeping.{Decides};

use crate::appending::{push_alone, push_zeros};
use crate::multiple::{is_natural, multiple};
use crate::points::copied;
use exact128::fits;
use linear_rows::{Multipliers, Numbers, Point, Proof, Row, Rows, proves};
use simplex::{Basis, Held, Implied, fails_at, holds, implied};
use std::alloc::{AllocError, Global};

/// Tests whether a row holds wherever rows hold, without solving where one row shows it or it fails at the origin.
pub fn tested(alloc: Global, rows: &Rows, row: &Row) -> Result<Held, AllocError>
    requires rows { HaveWidth rows.now.width rows.now.list }
    requires row { length row.now.coeffs ≡ rows.now.width }
    ensures { IfOk result (Tells rows.now.width (plain_rows rows.now.list) (plain_row row.now)) }
{
    if let Some(by) = shown_by_one(alloc, rows, row)? {
        return Ok(Held::Yes(by));
    }
    match failing_at_origin(alloc, rows, row)? {
        Some(point) => Ok(Held::No(point)),
        None => holds(alloc, rows, row),
    }
}

/// Says whether rows imply a row that none of them is known to show alone, beginning with the basis of the last test.
pub(crate) fn implied_from(
    alloc: Global,
    rows: &Rows,
    row: &Row,
    basis: &mut Basis,
) -> Result<Implied, AllocError>
    requires rows { HaveWidth rows.now.width rows.now.list }
    requires row { length row.now.coeffs ≡ rows.now.width }
    ensures { IfOk result (SaysHolds rows.now.width (plain_rows rows.now.list) (plain_row row.now)) }
{
    match failing_at_origin(alloc, rows, row)? {
        Some(point) => Ok(Implied::No(point)),
        None => implied(alloc, rows, row, basis),
    }
}

/// Decides whether a row holds on rows: by what is said of it, or by solving where that proves nothing.
pub(crate) fn decided(
    alloc: Global,
    rows: &Rows,
    row: &Row,
    said: Implied,
) -> Result<bool, AllocError>
    requires rows { HaveWidth rows.now.width rows.now.list }
    requires row { length row.now.coeffs ≡ rows.now.width }
    requires said { SaysHolds rows.now.width (plain_rows rows.now.list) (plain_row row.now) said }
    ensures { IfOk result (Decides rows.now.width (plain_rows rows.now.list) (plain_row row.now)) }
{
    match said {
        Implied::Yes => Ok(true),
        Implied::No(_) => Ok(false),
        Implied::Unsure(_) => is_held(alloc, rows, row),
        Implied::Open => is_held(alloc, rows, row),
    }
}

/// Whether solving says that a row holds on rows.
fn is_held(alloc: Global, rows: &Rows, row: &Row) -> Result<bool, AllocError>
    requires rows { HaveWidth rows.now.width rows.now.list }
    requires row { length row.now.coeffs ≡ rows.now.width }
    ensures { IfOk result (Decides rows.now.width (plain_rows rows.now.list) (plain_row row.now)) }
{
    match holds(alloc, rows, row)? {
        Held::Yes(_) => Ok(true),
        Held::No(_) => Ok(false),
        Held::Blown => Ok(false),
    }
}

/// Tests whether a row holds wherever rows hold, first at `point`, where it may fail.
pub fn tested_at(
    alloc: Global,
    rows: &Rows,
    row: &Row,
    point: &Option<Point>,
) -> Result<Held, AllocError>
    requires rows { HaveWidth rows.now.width rows.now.list }
    requires row { length row.now.coeffs ≡ rows.now.width }
    ensures { IfOk result (Tells rows.now.width (plain_rows rows.now.list) (plain_row row.now)) }
{
    if let Some(point) = point {
        if let Some(point) = failing_at(alloc, rows, row, point)? {
            return Ok(Held::No(point));
        }
    }
    tested(alloc, rows, row)
}

/// A copy of a point, if the rows hold there and the row fails.
fn failing_at(
    alloc: Global,
    rows: &Rows,
    row: &Row,
    point: &Point,
) -> Result<Option<Point>, AllocError>
    requires rows { HaveWidth rows.now.width rows.now.list }
    requires row { length row.now.coeffs ≡ rows.now.width }
    ensures { IfOk result (λ o. IfSome o
        (FailsAt rows.now.width (plain_rows rows.now.list) (plain_row row.now))) }
{
    if !fails_at(rows, row, point) {
        return Ok(None);
    }
    Ok(Some(copied(alloc, point)?))
}

/// Multipliers that show a row with no number below 0, or one that is at least a multiple of one of the rows.
pub(crate) fn shown_by_one(
    alloc: Global,
    rows: &Rows,
    row: &Row,
) -> Result<Option<Multipliers>, AllocError>
    requires rows { HaveWidth rows.now.width rows.now.list }
    requires row { length row.now.coeffs ≡ rows.now.width }
    ensures { IfOk result (λ o. IfSome o (Shows (plain_rows rows.now.list) (plain_row row.now))) }
{
    if !row_fits(row) {
        return Ok(None);
    }
    match candidate(alloc, rows, row)? {
        Some(by) => Ok(checked(rows, row, by)),
        None => Ok(None),
    }
}

/// Whether each number of a row fits.
fn row_fits(row: &Row) -> bool
    ensures { result ≡ true → all_of fits (plain_row row.now) ≡ true }
{
    if !fits(row.constant) {
        return false;
    }
    for k in 0..row.coeffs.len() {
        if !fits(row.coeffs.entry(k)) {
            return false;
        }
    }
    true
}

/// Multipliers that may show a row: those of no row, or of one of which it is at least a multiple.
fn candidate(alloc: Global, rows: &Rows, row: &Row) -> Result<Option<Multipliers>, AllocError>
    ensures { IfOk result (λ o. IfSome o (AreMultipliers (length rows.now.list))) }
{
    if is_natural(row) {
        return Ok(Some(of_none(alloc, rows.list.len())?));
    }
    for place in 0..rows.list.len() {
        if let Some(ratio) = multiple(row, rows.list.get(place)) {
            return Ok(Some(of_one(alloc, rows.list.len(), place, ratio.num, ratio.den)?));
        }
    }
    Ok(None)
}

/// The multipliers 0, with the scale 1.
fn of_none(alloc: Global, count: usize) -> Result<Multipliers, AllocError>
    ensures { IfOk result (AreMultipliers count) }
{
    let mut list = Numbers::new(alloc);
    push_zeros(&mut list, count)?;
    Ok(Multipliers { scale: 1, list })
}

/// The multipliers 0 but for one.
fn of_one(
    alloc: Global,
    count: usize,
    place: usize,
    times: i128,
    scale: i128,
) -> Result<Multipliers, AllocError>
    requires place { place < count }
    requires times { pos 0 ≤ℤ times }
    requires scale { pos 0 ≤ℤ scale }
    ensures { IfOk result (AreMultipliers count) }
{
    let mut list = Numbers::new(alloc);
    push_alone(&mut list, place, times, count - place - 1)?;
    Ok(Multipliers { scale, list })
}

/// The multipliers, if they show the row.
fn checked(rows: &Rows, row: &Row, by: Multipliers) -> Option<Multipliers>
    requires rows { HaveWidth rows.now.width rows.now.list }
    requires row { length row.now.coeffs ≡ rows.now.width }
    requires fits { all_of fits (plain_row row.now) ≡ true }
    requires multipliers { AreMultipliers (length rows.now.list) by }
    ensures { IfSome result (Shows (plain_rows rows.now.list) (plain_row row.now)) }
{
    match proves(rows, by.list.as_slice(), row, by.scale) {
        Proof::Holds => Some(by),
        Proof::Fails => None,
        Proof::Wide => None,
    }
}

/// The origin, if the rows hold there and the row fails.
fn failing_at_origin(alloc: Global, rows: &Rows, row: &Row) -> Result<Option<Point>, AllocError>
    requires rows { HaveWidth rows.now.width rows.now.list }
    ensures { IfOk result (λ o. IfSome o
        (FailsAt rows.now.width (plain_rows rows.now.list) (plain_row row.now))) }
{
    if row.constant >= 0 {
        return Ok(None);
    }
    if !hold_at_origin(rows) {
        return Ok(None);
    }
    let mut w = Numbers::new(alloc);
    push_zeros(&mut w, rows.width as usize)?;
    Ok(Some(Point { t: 1, w }))
}

/// Whether no row's constant is below 0.
fn hold_at_origin(rows: &Rows) -> bool
    ensures { result ≡ true → All (λ r. pos 0 ≤ℤ r.constant) rows.now.list }
{
    for k in 0..rows.list.len() {
        if rows.list.get(k).constant < 0 {
            return false;
        }
    }
    true
}
