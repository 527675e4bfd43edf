//! The search whether a row is in the cone of rows.
//!
//! While a coordinate of the row is below 0, a row y of the inverse has products of at least 0 with all other members,
//! and one below 0 with the tested row. If it has none below 0 with the units and the rows, it is a point at which the
//! rows hold and the tested row fails, or a way along which they hold and it falls. Else one with which it has one
//! takes the place of y's member. That is a step of the dual simplex method.
//!
//! Source: the choice of the smallest index as in Bland 1977.

ghost use Rattle.std.specs.Prelude.{◌≡◌, length};
ghost use Rattle.linear_rows.specs.Plain.{HaveWidth};

use crate::basis::{Basis, Member};
use crate::integers::{lowered, most_bits, product, shared_by, spell};
use crate::pricing::Prices;
use crate::wide_multipliers::WideMultipliers;
use crate::wide_point::WidePoint;
use exact128::plus;
use exact384::{Divisor, Integer, is_less_product, sum_of_products};
use linear_rows::{Numbers, Point, Row, Rows};
use std::alloc::{AllocError, Global};
use tableaux::{is_point, most_pivots};

/// After so many pivots of a search the smallest indices are chosen.
const EARLY_PIVOTS: usize = 400;

/// To so many bits the greatest number of each row of the inverse is shortened, to compare how far rows fail there.
const MEASURED_BITS: u32 = 20;

/// How pivots end.
#[derive(Clone, Copy)]
enum End {
    /// No coordinate is below 0.
    Inside,
    /// The row of the inverse at this place has a product below 0 with the tested row, and with no other one.
    Outside(usize),
    /// The pivots are spent, or a number does not fit.
    Open,
}

/// The most bits of the numbers of a point that is said to be near.
const NEAR_BITS: u32 = 60;

/// What a search finds of a row. None of it has been tested.
#[derive(Drop)]
pub enum Found {
    /// Multipliers of the rows that show it.
    Multipliers(WideMultipliers),
    /// A point of the rows at which it fails.
    Outside(Outside),
    /// Neither: the pivots are spent, or a number does not fit.
    Nothing,
}

/// A point of rows, and one near it of small numbers.
#[derive(Drop)]
pub struct Outside {
    pub near: Point,
    pub whole: WidePoint,
}

/// What a search finds of a row, without a test.
pub fn searched(
    alloc: Global,
    rows: &Rows,
    row: &Row,
    basis: &mut Basis,
) -> Result<Found, AllocError>
    requires width { HaveWidth rows.now.width rows.now.list }
    requires row { length row.now.coeffs ≡ rows.now.width }
{
    basis.begin(alloc)?;
    match run(alloc, rows, row, basis)? {
        End::Inside => multipliers(alloc, rows, basis, basis.determinant()),
        End::Outside(place) => failing(alloc, rows, row, basis, place),
        End::Open => Ok(Found::Nothing),
    }
}

/// Makes pivots until they end for a row.
fn run(alloc: Global, rows: &Rows, row: &Row, basis: &mut Basis) -> Result<End, AllocError> {
    let Some(most) = most_pivots(basis.columns(), rows.list.len()) else {
        return Ok(End::Open);
    };
    let target = spelt(alloc, row)?;
    let mut desk = Desk {
        numbers: Vec::with_capacity(alloc, target.len())?,
        prices: Prices::new(alloc, target.len())?,
    };
    pivots(rows, basis, target.as_slice(), &mut desk, most)
}

/// Room for the numbers of a row, and for prices.
struct Desk {
    numbers: Vec<i128>,
    prices: Prices,
}

impl Drop for Desk {
    fn drop(self) {
        let Desk {
            numbers: _,
            prices: _,
        } = self;
    }
}

/// Makes pivots for the numbers of a row, so many at most.
fn pivots(
    rows: &Rows,
    basis: &mut Basis,
    target: &[i128],
    desk: &mut Desk,
    most: usize,
) -> Result<End, AllocError> {
    for count in 0..most {
        if let Some(end) = pivot(rows, basis, target, desk, count >= EARLY_PIVOTS)? {
            return Ok(end);
        }
    }
    Ok(End::Open)
}

/// Makes one pivot, or says how they end.
fn pivot(
    rows: &Rows,
    basis: &mut Basis,
    target: &[i128],
    desk: &mut Desk,
    is_late: bool,
) -> Result<Option<End>, AllocError> {
    if !basis.measure(target) {
        return Ok(Some(End::Open));
    }
    let Some(place) = leaving(basis, is_late) else {
        return Ok(Some(End::Inside));
    };
    let Some(member) = entering(rows, basis, place, desk, is_late)? else {
        return Ok(Some(End::Outside(place)));
    };
    if enter(rows, basis, &mut desk.numbers, place, member)? {
        Ok(None)
    } else {
        Ok(Some(End::Open))
    }
}

/// The place of the least coordinate below 0, or of the first member with one.
fn leaving(basis: &Basis, is_late: bool) -> Option<usize> {
    let mut best = None;
    for place in 0..basis.columns() {
        if basis.coordinate(place).is_negative() && leaves(basis, place, best, is_late) {
            best = Some(place);
        }
    }
    best
}

/// Whether a place leaves rather than another one.
fn leaves(basis: &Basis, place: usize, best: Option<usize>, is_late: bool) -> bool {
    let Some(best) = best else {
        return true;
    };
    if is_late {
        basis.member(place).is_before(basis.member(best))
    } else {
        depth(basis, place) < depth(basis, best)
    }
}

/// About the coordinate at a place over the greatest number of its row of the inverse, times 2^20.
fn depth(basis: &Basis, place: usize) -> i128 {
    let y = basis.inverse_row(place);
    let places = most_bits(y).saturating_sub(MEASURED_BITS);
    lowered(basis.coordinate(place), places)
}

/// A member, its product with a row of the inverse, and its greatest number.
#[derive(Clone, Copy)]
struct Candidate {
    member: Member,
    value: Integer,
    size: i128,
}

impl Candidate {
    /// Whether the product over the greatest number is less than that of another one.
    fn is_less(self, other: Candidate) -> bool {
        is_less_product(self.value, other.size, other.value, self.size)
    }
}

/// The member that enters a place, if one has a product below 0 with its row of the inverse.
fn entering(
    rows: &Rows,
    basis: &mut Basis,
    place: usize,
    desk: &mut Desk,
    is_late: bool,
) -> Result<Option<Member>, AllocError> {
    if !is_late && let Some(at) = priced(rows, basis, place, desk)? {
        return Ok(Some(Member::Row(at)));
    }
    least(rows, basis.inverse_row(place), &mut desk.numbers, is_late)
}

/// The place of a row that is found by its price. Its product is seen to be below 0.
fn priced(
    rows: &Rows,
    basis: &mut Basis,
    place: usize,
    desk: &mut Desk,
) -> Result<Option<usize>, AllocError> {
    desk.prices.shorten(basis.inverse_row(place));
    let Some(at) = desk.prices.cheapest(rows, basis.next) else {
        return Ok(None);
    };
    if at >= rows.list.len() {
        return Ok(None);
    }
    spell(&mut desk.numbers, rows.list.get(at))?;
    match product(basis.inverse_row(place), desk.numbers.as_slice()) {
        Some(value) if value.is_negative() => {
            basis.next = at.saturating_add(1);
            Ok(Some(at))
        }
        _ => Ok(None),
    }
}

/// The member whose product with a row of the inverse, over its greatest number, is least, or the first one with a
/// product below 0, if there is one.
fn least(
    rows: &Rows,
    y: &[Integer],
    numbers: &mut Vec<i128>,
    is_late: bool,
) -> Result<Option<Member>, AllocError> {
    let mut best = entering_unit(y, is_late);
    for place in 0..rows.list.len() {
        if is_late && best.value.is_negative() {
            return Ok(Some(best.member));
        }
        spell(numbers, rows.list.get(place))?;
        if let Some(value) = product(y, numbers.as_slice())
            && value.is_negative()
        {
            let here = Candidate {
                member: Member::Row(place),
                value,
                size: greatest(numbers.as_slice()),
            };
            if here.is_less(best) {
                best = here;
            }
        }
    }
    Ok(if best.value.is_negative() {
        Some(best.member)
    } else {
        None
    })
}

/// The entering unit. Where there is none, the product is 0.
fn entering_unit(y: &[Integer], is_late: bool) -> Candidate {
    let mut best = Candidate {
        member: Member::Unit(0),
        value: Integer::ZERO,
        size: 1,
    };
    for column in 0..y.len() {
        if y[column].is_less(best.value) && !(is_late && best.value.is_negative()) {
            best = Candidate {
                member: Member::Unit(column),
                value: y[column],
                size: 1,
            };
        }
    }
    best
}

/// Puts a member into a place. It answers whether each number fits.
fn enter(
    rows: &Rows,
    basis: &mut Basis,
    numbers: &mut Vec<i128>,
    place: usize,
    member: Member,
) -> Result<bool, AllocError> {
    match member {
        Member::Unit(column) => basis.measure_unit(column),
        Member::Row(at) => {
            if at >= rows.list.len() {
                return Ok(false);
            }
            spell(numbers, rows.list.get(at))?;
            if !basis.measure(numbers.as_slice()) {
                return Ok(false);
            }
        }
    }
    Ok(basis.pivot(place, member))
}

/// The multipliers of the rows for the row that was measured last, with this scale.
fn multipliers(
    alloc: Global,
    rows: &Rows,
    basis: &Basis,
    scale: Integer,
) -> Result<Found, AllocError> {
    let mut list = vec![in alloc; Integer::ZERO; rows.list.len()]?;
    put_multipliers(&mut list, basis);
    Ok(Found::Multipliers(WideMultipliers { scale, list }))
}

/// Puts the coordinates of rows to the places of these rows.
fn put_multipliers(list: &mut Vec<Integer>, basis: &Basis) {
    for place in 0..basis.columns() {
        if let Member::Row(at) = basis.member(place)
            && at < list.len()
        {
            list[at] = basis.coordinate(place);
        }
    }
}

/// Numbers divided by what they share, if one is not 0.
fn reduced(alloc: Global, numbers: &[Integer]) -> Result<Option<Vec<Integer>>, AllocError> {
    let mut shared = Integer::ZERO;
    for number in numbers {
        shared = shared_by(shared, *number);
    }
    match Divisor::new(shared) {
        Some(divisor) => parts(alloc, numbers, divisor),
        None => Ok(None),
    }
}

/// Numbers divided by a common divisor.
fn parts(
    alloc: Global,
    numbers: &[Integer],
    divisor: Divisor,
) -> Result<Option<Vec<Integer>>, AllocError> {
    let mut list = Vec::with_capacity(alloc, numbers.len())?;
    for number in numbers {
        match divisor.crossed_quotient(*number, Integer::ONE, Integer::ZERO, Integer::ZERO) {
            Some(part) => list.push(part)?,
            None => return Ok(None),
        }
    }
    Ok(Some(list))
}

/// The point of these numbers, if each has at most 127 bits.
fn narrowed(alloc: Global, numbers: &[Integer]) -> Result<Option<Point>, AllocError> {
    let mut t = 0;
    let mut w = Vec::with_capacity(alloc, numbers.len())?;
    for column in 0..numbers.len() {
        match numbers[column].narrowed() {
            Some(number) if column == 0 => t = number,
            Some(number) => w.push(number)?,
            None => return Ok(None),
        }
    }
    Ok(Some(Point {
        t,
        w: Numbers::from_vec(w),
    }))
}

/// What a row of the inverse with a product below 0 with the tested row says: it is a point, or a way to one.
fn failing(
    alloc: Global,
    rows: &Rows,
    row: &Row,
    basis: &mut Basis,
    place: usize,
) -> Result<Found, AllocError>
    requires width { HaveWidth rows.now.width rows.now.list }
    requires row { length row.now.coeffs ≡ rows.now.width }
{
    let numbers = basis.inverse_row(place);
    if let Some(t) = numbers.first()
        && !t.is_zero()
    {
        let whole = Vec::from_slice(alloc, numbers)?;
        return at_point(alloc, whole);
    }
    match reduced(alloc, numbers)? {
        Some(way) => far_along(alloc, rows, row, basis, way.as_slice()),
        None => Ok(Found::Nothing),
    }
}

/// What says that a row fails at the point of these numbers.
fn at_point(alloc: Global, numbers: Vec<Integer>) -> Result<Found, AllocError> {
    let near = near(alloc, numbers.as_slice())?;
    Ok(Found::Outside(Outside {
        near,
        whole: WidePoint { numbers },
    }))
}

/// A point near that of these numbers.
fn near(alloc: Global, numbers: &[Integer]) -> Result<Point, AllocError> {
    let places = most_bits(numbers).saturating_sub(NEAR_BITS);
    let mut t = 1;
    let mut w = Vec::with_capacity(alloc, numbers.len())?;
    for column in 0..numbers.len() {
        let number = lowered(numbers[column], places);
        if column == 0 {
            t = number.max(1);
        } else {
            w.push(number)?;
        }
    }
    Ok(Point {
        t,
        w: Numbers::from_vec(w),
    })
}

/// A point far along a way, or multipliers that show that the rows hold nowhere.
fn far_along(
    alloc: Global,
    rows: &Rows,
    row: &Row,
    basis: &mut Basis,
    way: &[Integer],
) -> Result<Found, AllocError>
    requires width { HaveWidth rows.now.width rows.now.list }
{
    if !is_inside(rows, basis) {
        match run_for_bottom(alloc, rows, basis)? {
            End::Inside => return multipliers(alloc, rows, basis, Integer::ZERO),
            End::Outside(place) => keep_inside(alloc, basis, place)?,
            End::Open => return Ok(Found::Nothing),
        }
    }
    let Some(from) = basis.inside() else {
        return Ok(Found::Nothing);
    };
    match along(alloc, row, from, way)? {
        Some(whole) => at_point(alloc, whole),
        None => Ok(Found::Nothing),
    }
}

/// Keeps the point of a row of the inverse, if it fits.
fn keep_inside(alloc: Global, basis: &mut Basis, place: usize) -> Result<(), AllocError> {
    let point = match reduced(alloc, basis.inverse_row(place))? {
        Some(numbers) => narrowed(alloc, numbers.as_slice())?,
        None => None,
    };
    basis.keep_inside(point);
    Ok(())
}

/// Whether a point of the rows is known.
fn is_inside(rows: &Rows, basis: &Basis) -> bool
    requires { HaveWidth rows.now.width rows.now.list }
{
    match basis.inside() {
        Some(point) => is_point(rows, point.t, point.w.as_slice()),
        None => false,
    }
}

/// Makes pivots until they end for the row that holds nowhere.
fn run_for_bottom(alloc: Global, rows: &Rows, basis: &mut Basis) -> Result<End, AllocError> {
    let bottom = Row::bottom(alloc, rows.width)?;
    run(alloc, rows, &bottom, basis)
}

/// The numbers of the point so far along a way from another one that a row fails, if they fit.
fn along(
    alloc: Global,
    row: &Row,
    from: &Point,
    way: &[Integer],
) -> Result<Option<Vec<Integer>>, AllocError> {
    let Some(steps) = steps(alloc, row, from, way)? else {
        return Ok(None);
    };
    let mut numbers = Vec::with_capacity(alloc, way.len())?;
    for column in 0..way.len() {
        let start = number_of(from, column);
        match sum_of_products(&[way[column], Integer::new(start)], &[steps, 1]) {
            Some(number) => numbers.push(number)?,
            None => return Ok(None),
        }
    }
    Ok(Some(numbers))
}

/// A point's number in a column: t is the first.
fn number_of(point: &Point, column: usize) -> i128 {
    match column.checked_sub(1) {
        Some(k) => point.w.entry(k),
        None => point.t,
    }
}

/// How often a way is to be gone from a point until a row fails.
fn steps(
    alloc: Global,
    row: &Row,
    from: &Point,
    way: &[Integer],
) -> Result<Option<i128>, AllocError> {
    let numbers = spelt(alloc, row)?;
    let fall = product(way, numbers.as_slice());
    match (row.value_at(from.t, from.w.as_slice()), fall) {
        (Some(here), Some(fall)) => Ok(steps_down(here, fall)),
        _ => Ok(None),
    }
}

/// How often a value changes by a number below 0 until it is below 0.
fn steps_down(value: i128, fall: Integer) -> Option<i128> {
    if value < 0 {
        return Some(0);
    }
    match fall.narrowed() {
        Some(fall) => plus(value.checked_div(fall.checked_neg()?)?, 1),
        None => Some(1),
    }
}

/// The numbers of a row, the constant first.
fn spelt(alloc: Global, row: &Row) -> Result<Vec<i128>, AllocError> {
    let mut numbers = Vec::with_capacity(alloc, row.coeffs.len().saturating_add(1))?;
    spell(&mut numbers, row)?;
    Ok(numbers)
}

/// The greatest absolute value of numbers, and at least 1.
fn greatest(numbers: &[i128]) -> i128 {
    let mut most = 1;
    for number in numbers {
        most = most.max(number.checked_abs().unwrap_or(i128::MAX));
    }
    most
}
