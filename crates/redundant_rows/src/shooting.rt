//! The row that is met first on the way from a point inside of rows to one outside.
//!
//! A row that is met alone is needed: it alone fails at a point just behind the place where it is met. What is found
//! here is a hint, which is tested before anybody relies on it.

ghost use Rattle.std.specs.Prelude.{◌≡◌, length};

use crate::mark::Mark;
use crate::points::{Weights, bits_above, copied, weighed};
use exact128::{minus, plus};
use exact384::{Integer, is_less_product};
use linear_rows::{Point, Row, Rows};
use std::alloc::{AllocError, Global};

/// The most bits of the numbers that say how often points are taken.
const WEIGHT_BITS: u32 = 40;

/// A row that is met alone, and a point at which it alone fails, where one is known.
#[derive(Drop)]
pub(crate) struct Facet {
    pub(crate) place: usize,
    pub(crate) witness: Option<Point>,
}

/// The waiting row that is met alone before all others, on the way to a point outside at which the kept rows hold.
pub(crate) fn first_met(
    alloc: Global,
    rows: &Rows,
    marks: &[Mark],
    inside: &Point,
    outside: &Point,
) -> Result<Option<Facet>, AllocError>
    requires marks { length marks.now ≡ length rows.now.list }
{
    let Some(way) = walked(rows, marks, inside, outside) else {
        return Ok(None);
    };
    let Some(first) = way.first else {
        return Ok(None);
    };
    match way.second {
        Some(second) => behind(alloc, first, second, inside, outside),
        None => Ok(Some(Facet {
            place: first.place,
            witness: Some(copied(alloc, outside)?),
        })),
    }
}

/// The first of two rows, with the point half-way between the places where they are met, unless they are met at once.
fn behind(
    alloc: Global,
    first: Met,
    second: Met,
    inside: &Point,
    outside: &Point,
) -> Result<Option<Facet>, AllocError> {
    if !first.is_before(second) {
        return Ok(None);
    }
    let witness = match half_way(first, second) {
        Some(weights) => weighed(alloc, weights, inside, outside)?,
        None => None,
    };
    Ok(Some(Facet {
        place: first.place,
        witness,
    }))
}

/// How often the points inside and outside are taken at a point between the places where two rows are met.
fn half_way(first: Met, second: Met) -> Option<Weights> {
    let inside = plus(first.far, second.far)?;
    let outside = plus(first.near, second.near)?;
    if inside < 1 || outside < 1 {
        return None;
    }
    let places = bits_above(inside.max(outside).unsigned_abs(), WEIGHT_BITS);
    Some(Weights {
        first: inside >> places,
        second: outside >> places,
    })
}

// A row that is met: its value at the point inside, and how far below 0 it is at the point outside. Both are above 0.
#[derive(Clone, Copy)]
struct Met {
    place: usize,
    near: i128,
    far: i128,
}

impl Met {
    /// Whether this row is met before another one.
    fn is_before(self, other: Met) -> bool {
        is_less_product(
            Integer::new(self.near),
            other.far,
            Integer::new(other.near),
            self.far,
        )
    }
}

// The rows that are met first and second, as far as the rows were gone over.
#[derive(Clone, Copy)]
struct Way {
    first: Option<Met>,
    second: Option<Met>,
}

impl Way {
    /// The way, with one more row that is met.
    fn with(self, met: Met) -> Way {
        let Some(first) = self.first else {
            return Way {
                first: Some(met),
                second: None,
            };
        };
        if met.is_before(first) {
            return Way {
                first: Some(met),
                second: Some(first),
            };
        }
        self.with_second(met)
    }

    /// The way, with one more row that is not met before the first.
    fn with_second(self, met: Met) -> Way {
        if let Some(second) = self.second {
            if !met.is_before(second) {
                return self;
            }
        }
        Way {
            first: self.first,
            second: Some(met),
        }
    }

    /// The way, with a row if it is met. None where the row is met at the point inside. A row is passed over where a
    /// number does not fit: one that is needed most often has small numbers.
    fn past(self, place: usize, row: &Row, inside: &Point, outside: &Point) -> Option<Way> {
        let Some(value) = row.value_at(outside.t, outside.w.as_slice()) else {
            return Some(self);
        };
        if value >= 0 {
            return Some(self);
        }
        let Some(near) = row.value_at(inside.t, inside.w.as_slice()) else {
            return Some(self);
        };
        if near < 1 {
            return None;
        }
        let far = minus(0, value)?;
        Some(self.with(Met { place, near, far }))
    }
}

/// The rows that are met first and second, of those that wait. None of those that were kept is met before the point
/// outside, but for what it was shortened.
fn walked(rows: &Rows, marks: &[Mark], inside: &Point, outside: &Point) -> Option<Way>
    requires marks { length marks.now ≡ length rows.now.list }
{
    let mut way = Way {
        first: None,
        second: None,
    };
    for place in 0..rows.list.len() {
        if waits(marks[place]) {
            way = way.past(place, rows.list.get(place), inside, outside)?;
        }
    }
    Some(way)
}

/// Whether a row waits.
fn waits(mark: Mark) -> bool {
    match mark {
        Mark::Waiting => true,
        Mark::Kept => false,
        Mark::Implied => false,
    }
}
