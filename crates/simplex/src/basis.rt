//! A basis of the cone of rows, by its inverse.
//!
//! A row of d numbers, the constant first, holds wherever rows hold if it is in their cone: if it is a sum of natural
//! multiples of these rows and of the d units, each of which is 1 in one column and 0 in the others. A basis has d
//! members, which are rows or units. Its inverse is d times d numbers and a determinant, which is above 0: a row of the
//! inverse times the member of its place is the determinant, and times each other member 0. So the inverse's rows times
//! a row are that row's coordinates over the determinant.
//!
//! Source: the numbers of an inverse over one determinant as in Edmonds 1967.

use crate::integers::product;
use exact384::{Divisor, Integer};
use linear_rows::Point;
use std::alloc::{AllocError, Global};

/// What stands in a place of a basis.
#[derive(Clone, Copy)]
pub enum Member {
    /// The unit of this column.
    Unit(usize),
    /// The row at this place of the rows.
    Row(usize),
}

impl Member {
    /// Whether it comes before another one: units come first.
    pub fn is_before(self, other: Member) -> bool {
        match (self, other) {
            (Member::Unit(a), Member::Unit(b)) => a < b,
            (Member::Unit(_), Member::Row(_)) => true,
            (Member::Row(_), Member::Unit(_)) => false,
            (Member::Row(a), Member::Row(b)) => a < b,
        }
    }
}

/// The basis at which the test of a row ended. The next test begins there.
///
/// It is a hint, and may be wrong: what is found by it is tested.
pub struct Basis {
    columns: usize,
    // The numbers of the inverse, row by row.
    inverse: Vec<Integer>,
    determinant: Integer,
    members: Vec<Member>,
    // The coordinates of the row that was measured last.
    coordinates: Vec<Integer>,
    // A point of the rows, as far as one is known.
    inside: Option<Point>,
    // The place of the row from which on the rows are gone over next.
    pub(crate) next: usize,
}

impl Drop for Basis {
    fn drop(self) {
        let Basis {
            columns: _,
            inverse: _,
            determinant: _,
            members: _,
            coordinates: _,
            inside: _,
            next: _,
        } = self;
    }
}

impl Basis {
    /// A basis for rows of a width, and a point of these rows if one is known. It takes no memory before the first
    /// test.
    pub fn new(alloc: Global, width: u32, inside: Option<Point>) -> Result<Basis, AllocError> {
        Ok(Basis {
            columns: width as usize + 1,
            inverse: Vec::new(alloc),
            determinant: Integer::ONE,
            members: Vec::new(alloc),
            coordinates: Vec::new(alloc),
            inside,
            next: 0,
        })
    }

    /// Takes the memory that a test needs, if that has not been done.
    pub fn begin(&mut self, alloc: Global) -> Result<(), AllocError> {
        if self.members.len() != self.columns {
            let Some(many) = self.columns.checked_mul(self.columns) else {
                return Err(AllocError);
            };
            self.inverse = vec![in alloc; Integer::ZERO; many]?;
            self.coordinates = vec![in alloc; Integer::ZERO; self.columns]?;
            self.members = vec![in alloc; Member::Unit(0); self.columns]?;
            self.reset();
        }
        Ok(())
    }

    /// Makes the units the members.
    pub fn reset(&mut self) {
        self.determinant = Integer::ONE;
        for place in 0..self.members.len() {
            self.set_member(place, Member::Unit(place));
            self.set_unit(place);
        }
    }

    /// Makes a row of the inverse a unit.
    fn set_unit(&mut self, place: usize) {
        for column in 0..self.columns {
            self.set(place, column, Integer::ZERO);
        }
        self.set(place, place, Integer::ONE);
    }

    /// How many columns there are.
    pub fn columns(&self) -> usize {
        self.columns
    }

    /// What an inverse's numbers are over.
    pub fn determinant(&self) -> Integer {
        self.determinant
    }

    /// The point of the rows that is known.
    pub fn inside(&self) -> Option<&Point> {
        self.inside.as_ref()
    }

    /// Keeps a point of the rows.
    pub fn keep_inside(&mut self, point: Option<Point>) {
        self.inside = point;
    }

    /// A row of the inverse.
    pub fn inverse_row(&self, place: usize) -> &[Integer] {
        let from = place.saturating_mul(self.columns);
        let to = from.saturating_add(self.columns);
        if to <= self.inverse.len() {
            &self.inverse.as_slice()[from..to]
        } else {
            &[]
        }
    }

    /// The member at a place.
    pub fn member(&self, place: usize) -> Member {
        if place < self.members.len() {
            self.members[place]
        } else {
            Member::Unit(place)
        }
    }

    /// Puts a member to a place.
    fn set_member(&mut self, place: usize, member: Member) {
        if place < self.members.len() {
            self.members[place] = member;
        }
    }

    /// The coordinate at a place.
    pub fn coordinate(&self, place: usize) -> Integer {
        if place < self.coordinates.len() {
            self.coordinates[place]
        } else {
            Integer::ZERO
        }
    }

    /// Finds the coordinates of a row of these numbers. It answers whether they fit.
    pub fn measure(&mut self, numbers: &[i128]) -> bool {
        for place in 0..self.coordinates.len() {
            match product(self.inverse_row(place), numbers) {
                Some(number) => self.coordinates[place] = number,
                None => return false,
            }
        }
        true
    }

    /// Finds the coordinates of the unit of a column.
    pub fn measure_unit(&mut self, column: usize) {
        for place in 0..self.coordinates.len() {
            self.coordinates[place] = self.number(place, column);
        }
    }

    /// The number of the inverse in a row and a column.
    fn number(&self, row: usize, column: usize) -> Integer {
        let place = self.place(row, column);
        if place < self.inverse.len() {
            self.inverse[place]
        } else {
            Integer::ZERO
        }
    }

    /// Puts a number into a row and a column of the inverse.
    fn set(&mut self, row: usize, column: usize, number: Integer) {
        let place = self.place(row, column);
        if place < self.inverse.len() {
            self.inverse[place] = number;
        }
    }

    /// Where the number of a row and a column stands.
    fn place(&self, row: usize, column: usize) -> usize {
        row.saturating_mul(self.columns).saturating_add(column)
    }

    /// Puts the member whose coordinates were found last into a place where its coordinate is below 0. It answers
    /// whether each number fits.
    pub fn pivot(&mut self, place: usize, member: Member) -> bool {
        let pivot = self.coordinate(place);
        if !pivot.is_negative() {
            return false;
        }
        let Some(divisor) = Divisor::new(self.determinant) else {
            return false;
        };
        for other in 0..self.columns {
            if other != place && !self.replace(other, place, pivot, divisor) {
                return false;
            }
        }
        self.negate(place);
        self.determinant = pivot.negated();
        self.set_member(place, member);
        true
    }

    /// Takes the new member out of another row of the inverse.
    fn replace(&mut self, other: usize, place: usize, pivot: Integer, divisor: Divisor) -> bool {
        let factor = self.coordinate(other);
        for column in 0..self.columns {
            let x = self.number(place, column);
            let y = self.number(other, column);
            if !x.is_zero() || !y.is_zero() {
                match divisor.crossed_quotient(x, factor, y, pivot) {
                    Some(number) => self.set(other, column, number),
                    None => return false,
                }
            }
        }
        true
    }

    /// Negates a row of the inverse.
    fn negate(&mut self, row: usize) {
        for column in 0..self.columns {
            let number = self.number(row, column);
            self.set(row, column, number.negated());
        }
    }
}
