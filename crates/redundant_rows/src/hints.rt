//! What is remembered of the tests of rows, to save others. All of it may be wrong.

ghost use Rattle.std.specs.Prelude.{◌≡◌, ◌≢◌, length, IfOk, slice_get, Some, true, false};
ghost use Rattle.linear_rows.specs.Plain.{plain_row, plain_rows, HaveWidth};
ghost use Rattle.linear_rows.specs.Irredundant.{Fails};
ghost use Rattle.redundant_rows.specs.Sweeping.{Decides};
ghost use Rattle.simplex.specs.Telling.{SaysHolds};

use crate::at_once::{decided, implied_from};
use crate::beside::failing_beside;
use crate::mark::Mark;
use crate::points::{copied_if_known, shortened};
use crate::shooting::{Facet, first_met};
use linear_rows::{Point, Row, Rows};
use simplex::{Basis, Implied, fails_at};
use std::alloc::{AllocError, Global};

/// A point inside of the rows, the basis of the last test, and for each row a point at which it alone fails, as far as
/// they are known.
pub(crate) struct Hints {
    inside: Option<Point>,
    basis: Basis,
    witnesses: Vec<Option<Point>>,
}

impl Drop for Hints {
    fn drop(self) {
        let Hints {
            inside: _,
            basis: _,
            witnesses: _,
        } = self;
    }
}

impl Hints {
    /// Nothing is known of the rows but a point inside.
    pub(crate) fn new(
        alloc: Global,
        rows: &Rows,
        inside: &Option<Point>,
    ) -> Result<Hints, AllocError> {
        let mut witnesses = Vec::new(alloc);
        for place in 0..rows.list.len() {
            witnesses.push(None)?;
        }
        Ok(Hints {
            inside: copied_if_known(alloc, inside)?,
            basis: fresh_basis(alloc, rows.width, inside)?,
            witnesses,
        })
    }

    /// Tests a row on rows of which each is one of those of the last test, or comes after them.
    pub(crate) fn test(
        &mut self,
        alloc: Global,
        rows: &Rows,
        row: &Row,
    ) -> Result<Implied, AllocError>
        requires rows { HaveWidth rows.now.width rows.now.list }
        requires row { length row.now.coeffs ≡ rows.now.width }
        ensures { IfOk result
            (SaysHolds rows.now.width (plain_rows rows.now.list) (plain_row row.now)) }
    {
        match failing_beside(alloc, rows, row, &self.inside)? {
            Some(point) => Ok(Implied::No(point)),
            None => implied_from(alloc, rows, row, &mut self.basis),
        }
    }

    /// The place of the row that is kept next, where the one at `place` fails at a point outside.
    pub(crate) fn next(
        &mut self,
        alloc: Global,
        rows: &Rows,
        marks: &[Mark],
        place: usize,
        outside: &Point,
    ) -> Result<usize, AllocError>
        requires marks { length marks.now ≡ length rows.now.list }
        requires waiting { slice_get marks.now place ≡ Some Mark.Waiting }
        ensures { IfOk result (λ next. slice_get marks.now next ≡ Some Mark.Waiting) }
    {
        let outside = shortened(alloc, outside)?;
        let Some(facet) = shot(alloc, rows, marks, &self.inside, &outside)? else {
            return Ok(place);
        };
        let next = facet.place;
        if !is_waiting(marks, next) {
            return Ok(place);
        }
        self.remember(facet);
        Ok(next)
    }

    /// Remembers the point at which a row alone fails.
    fn remember(&mut self, facet: Facet) {
        let Facet { place, witness } = facet;
        if place < self.witnesses.len() {
            self.witnesses[place] = witness;
        }
    }

    /// The row at a place is gone.
    pub(crate) fn forget(&mut self, place: usize) {
        if place < self.witnesses.len() {
            self.witnesses.remove(place);
        }
    }

    /// Only the rows that are marked as kept are left.
    pub(crate) fn leave(&mut self, marks: &[Mark]) {
        let mut left = 0;
        for place in 0..self.witnesses.len() {
            if place < marks.len() && is_kept(marks[place]) {
                self.witnesses.swap(left, place);
                left += 1;
            }
        }
        self.witnesses.truncate(left);
    }

    /// Decides whether the row at a place holds on the others.
    pub(crate) fn holds_apart(
        &self,
        alloc: Global,
        others: &Rows,
        row: &Row,
        place: usize,
    ) -> Result<bool, AllocError>
        requires rows { HaveWidth others.now.width others.now.list }
        requires row { length row.now.coeffs ≡ others.now.width }
        ensures { IfOk result
            (Decides others.now.width (plain_rows others.now.list) (plain_row row.now)) }
    {
        if self.fails_apart(others, row, place) {
            return Ok(false);
        }
        if let Some(_) = failing_beside(alloc, others, row, &self.inside)? {
            return Ok(false);
        }
        let mut basis = fresh_basis(alloc, others.width, &self.inside)?;
        let said = implied_from(alloc, others, row, &mut basis)?;
        decided(alloc, others, row, said)
    }

    /// Whether a point is known at which the row at a place alone fails.
    fn fails_apart(&self, others: &Rows, row: &Row, place: usize) -> bool
        requires rows { HaveWidth others.now.width others.now.list }
        requires row { length row.now.coeffs ≡ others.now.width }
        ensures { result ≡ true
            → Fails others.now.width (plain_rows others.now.list) (plain_row row.now) }
    {
        match self.witnesses.get(place) {
            Some(Some(witness)) => fails_at(others, row, witness),
            _ => false,
        }
    }
}

/// The basis of a first test.
fn fresh_basis(alloc: Global, width: u32, inside: &Option<Point>) -> Result<Basis, AllocError> {
    Basis::new(alloc, width, copied_if_known(alloc, inside)?)
}

/// The row that is met alone on the way from the point inside, where one is known, to one outside.
fn shot(
    alloc: Global,
    rows: &Rows,
    marks: &[Mark],
    inside: &Option<Point>,
    outside: &Point,
) -> Result<Option<Facet>, AllocError>
    requires marks { length marks.now ≡ length rows.now.list }
{
    match inside {
        Some(inside) => first_met(alloc, rows, marks, inside, outside),
        None => Ok(None),
    }
}

/// Whether a row waits at a place.
pub(crate) fn is_waiting(marks: &[Mark], place: usize) -> bool
    ensures waiting { result ≡ true → slice_get marks.now place ≡ Some Mark.Waiting }
    ensures other { result ≡ false → slice_get marks.now place ≢ Some Mark.Waiting }
{
    match marks.get(place) {
        Some(mark) => match mark {
            Mark::Waiting => true,
            Mark::Kept => false,
            Mark::Implied => false,
        },
        None => false,
    }
}

/// Whether a row was inserted.
fn is_kept(mark: Mark) -> bool {
    match mark {
        Mark::Waiting => false,
        Mark::Kept => true,
        Mark::Implied => false,
    }
}
