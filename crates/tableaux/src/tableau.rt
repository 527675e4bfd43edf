//! A tableau of rows, and its pivots.
//!
//! Each of the rows that are solved has a slack variable, which is its value: at least 0 where it holds. A tableau says
//! what some variables, the basic ones, are by the others, which are free. In each of its rows the denominator times
//! the basic variable is the sum of the row's numbers, each times the free variable of its column. Column 0 has the
//! constants. At first the slack variables are basic and the denominators are 1. A pivot exchanges the basic variable
//! of a row and the free variable of a column.
//!
//! All numbers are whole. Each row has a denominator of its own, which is above 0, so that a pivot changes only the
//! rows that have its column, and most systems stay sparse. The numbers of a row have no divisor in common with its
//! denominator, which keeps them as small as determinants of the rows' numbers.
//!
//! The first pivots are chosen by the smallest index. Where they do not end soon, pivots are chosen that change few
//! numbers, as a system of many rows stays sparse then; and in the end by the smallest index again, since no tableau
//! comes twice by it.
//!
//! Source: integer pivoting as in Edmonds 1967, the choice of the smallest index as in Bland 1977, and the choice of
//! few numbers in a row and in a column as in Markowitz 1957.

ghost use Rattle.std.specs.Prelude.{◌+◌, ◌<◌, ◌^◌, length};

use crate::divisors::{divide, divided, shared_by};
use exact128::{minus, times};
use linear_rows::{Numbers, Rows};
use std::alloc::{AllocError, Global};

/// A tableau. The rows' variables are numbered first, and then their slack variables.
pub struct Tableau {
    // The numbers, row by row, each of which has one for each column.
    numbers: Vec<i128>,
    columns: usize,
    // The variable of each row.
    basic: Vec<usize>,
    // The variable of each column but that of the constants.
    free: Vec<usize>,
    // The denominator of each row.
    denominators: Vec<i128>,
    // How many numbers other than 0 each row has, and each column.
    in_rows: Vec<usize>,
    in_columns: Vec<usize>,
}

impl Drop for Tableau {
    fn drop(self) {
        let Tableau {
            numbers: _,
            columns: _,
            basic: _,
            free: _,
            denominators: _,
            in_rows: _,
            in_columns: _,
        } = self;
    }
}

/// How many pivots are chosen by the smallest index at first.
const PIVOTS_BY_INDEX: usize = 64;

/// How a pivot is chosen.
#[derive(Clone, Copy)]
enum Choice {
    /// By the smallest index of a variable.
    Index,
    /// By the fewest numbers in a row, and in a column.
    Fewest,
}

/// How pivots end.
#[derive(Clone, Copy)]
pub enum End {
    /// No constant is below 0, so that the rows hold where each free variable is 0.
    Holding,
    /// In this row the constant is below 0 and no other number is above 0, so that its variable is below 0 everywhere.
    Failing(usize),
    /// The pivots are spent, or a number does not fit.
    Open,
}

impl Tableau {
    /// The tableau of rows in which their slack variables are basic.
    pub fn new(alloc: Global, rows: &Rows) -> Result<Tableau, AllocError>
        requires { rows.now.width + length rows.now.list < 2 ^ 64 }
    {
        let width = rows.width as usize;
        let many = rows.list.len();
        let numbers = numbers_of(alloc, rows)?;
        let basic = counted(alloc, width, many)?;
        let free = counted(alloc, 0, width)?;
        let denominators = vec![in alloc; 1; many]?;
        let in_rows = vec![in alloc; 0; many]?;
        let in_columns = vec![in alloc; 0; width + 1]?;
        let mut tableau = Tableau {
            numbers,
            columns: width + 1,
            basic,
            free,
            denominators,
            in_rows,
            in_columns,
        };
        tableau.count();
        Ok(tableau)
    }

    /// Counts the numbers other than 0 of each row and each column.
    fn count(&mut self) {
        for row in 0..self.basic.len() {
            for column in 0..self.columns {
                if self.number(row, column) != 0 {
                    raise(&mut self.in_rows, row);
                    raise(&mut self.in_columns, column);
                }
            }
        }
    }

    /// Makes pivots until the rows hold or fail, but at most `most`.
    pub fn run(&mut self, alloc: Global, most: usize) -> Result<End, AllocError> {
        for made in 0..most {
            let choice = choice_after(made, most);
            let row = self.leaving(choice);
            if row == self.basic.len() {
                return Ok(End::Holding);
            }
            let column = self.entering(row, choice);
            if column == self.columns {
                return Ok(End::Failing(row));
            }
            if !self.pivot(alloc, row, column)? {
                return Ok(End::Open);
            }
        }
        Ok(End::Open)
    }

    /// The values of the first `width` variables where the free ones are 0, over the last number, which is 0 where the
    /// values do not fit.
    pub fn values(&self, alloc: Global, width: usize) -> Result<Numbers, AllocError> {
        let mut values = vec![in alloc; 0; width]?;
        let shared = self.shared_denominator(width);
        for row in 0..self.basic.len() {
            let value = times(self.number(row, 0), divided(shared, self.denominator(row)));
            put(&mut values, self.basic[row], value.unwrap_or(-1));
        }
        values.push(shared)?;
        divide(&mut values);
        Ok(Numbers::from_vec(values))
    }

    /// A multiple of the denominators of the first `width` variables, or 0 where it does not fit.
    fn shared_denominator(&self, width: usize) -> i128 {
        let mut shared = 1;
        for row in 0..self.basic.len() {
            if self.basic[row] < width {
                shared = multiple(shared, self.denominator(row));
            }
        }
        shared
    }

    /// The multipliers of the `many` rows by which they sum to what a failing row says, over `width` variables.
    pub fn multipliers(
        &self,
        alloc: Global,
        width: usize,
        many: usize,
        row: usize,
    ) -> Result<Numbers, AllocError> {
        let mut multipliers = vec![in alloc; 0; many]?;
        if row < self.basic.len() {
            put_slack(
                &mut multipliers,
                width,
                self.basic[row],
                self.denominator(row),
            );
        }
        for j in 0..self.free.len() {
            let number = minus(0, self.number(row, j + 1)).unwrap_or(0);
            put_slack(&mut multipliers, width, self.free[j], number);
        }
        divide(&mut multipliers);
        Ok(Numbers::from_vec(multipliers))
    }

    /// The number in a row and a column, or 0 where there is none.
    fn number(&self, row: usize, column: usize) -> i128 {
        let place = self.place(row, column);
        if place < self.numbers.len() {
            self.numbers[place]
        } else {
            0
        }
    }

    /// Puts a number into a row and a column.
    fn set(&mut self, row: usize, column: usize, number: i128) {
        let place = self.place(row, column);
        let before = self.number(row, column);
        put(&mut self.numbers, place, number);
        if before == 0 && number != 0 {
            raise(&mut self.in_rows, row);
            raise(&mut self.in_columns, column);
        }
        if before != 0 && number == 0 {
            lower(&mut self.in_rows, row);
            lower(&mut self.in_columns, column);
        }
    }

    /// Where the number of a row and a column stands.
    fn place(&self, row: usize, column: usize) -> usize {
        row.saturating_mul(self.columns).saturating_add(column)
    }

    /// The denominator of a row, or 1 where there is no such row.
    fn denominator(&self, row: usize) -> i128 {
        if row < self.denominators.len() {
            self.denominators[row]
        } else {
            1
        }
    }

    /// The row, among those whose constant is below 0, of the first variable or with the fewest numbers. It is the
    /// number of rows where there is none.
    fn leaving(&self, choice: Choice) -> usize {
        let mut least = usize::MAX;
        let mut at = self.basic.len();
        for row in 0..self.basic.len() {
            if self.number(row, 0) < 0 {
                let weight = match choice {
                    Choice::Index => self.basic[row],
                    Choice::Fewest => entry(self.in_rows.as_slice(), row),
                };
                if weight < least {
                    least = weight;
                    at = row;
                }
            }
        }
        at
    }

    /// The column, among those whose variable raises a row's variable, of the first variable or with the fewest
    /// numbers. It is the number of columns where there is none.
    fn entering(&self, row: usize, choice: Choice) -> usize {
        let mut least = usize::MAX;
        let mut at = self.columns;
        for j in 0..self.free.len() {
            if self.number(row, j + 1) > 0 {
                let weight = match choice {
                    Choice::Index => self.free[j],
                    Choice::Fewest => entry(self.in_columns.as_slice(), j + 1),
                };
                if weight < least {
                    least = weight;
                    at = j + 1;
                }
            }
        }
        at
    }

    /// Exchanges the variables of a row and a column. It answers whether each number fits.
    fn pivot(&mut self, alloc: Global, row: usize, column: usize) -> Result<bool, AllocError> {
        let places = self.places(alloc, row)?;
        for other in 0..self.basic.len() {
            if other != row && !self.replace(other, row, column, places.as_slice()) {
                return Ok(false);
            }
        }
        Ok(self.turn(row, column, places.as_slice()))
    }

    /// The columns in which a row has a number other than 0.
    fn places(&self, alloc: Global, row: usize) -> Result<Vec<usize>, AllocError> {
        let mut places = Vec::new(alloc);
        for column in 0..self.columns {
            if self.number(row, column) != 0 {
                places.push(column)?;
            }
        }
        Ok(places)
    }

    /// Puts what a row says of a column's variable into another row. The row has numbers at these places.
    fn replace(&mut self, other: usize, row: usize, column: usize, places: &[usize]) -> bool {
        let factor = self.number(other, column);
        if factor == 0 {
            return true;
        }
        let pivot = self.number(row, column);
        let shared = shared_by(factor, pivot);
        let scale = divided(pivot, shared);
        let factor = divided(factor, shared);
        if scale != 1 && !self.scale(other, scale) {
            return false;
        }
        if !self.subtract(other, row, factor, places) {
            return false;
        }
        match times(factor, self.denominator(row)) {
            Some(number) => self.set(other, column, number),
            None => return false,
        }
        if scale != 1 {
            self.reduce(other);
        }
        true
    }

    /// Multiplies a row by a number.
    fn scale(&mut self, row: usize, scale: i128) -> bool {
        for j in 0..self.columns {
            let x = self.number(row, j);
            if x != 0 {
                match times(scale, x) {
                    Some(number) => self.set(row, j, number),
                    None => return false,
                }
            }
        }
        match times(scale, self.denominator(row)) {
            Some(number) => put(&mut self.denominators, row, number),
            None => return false,
        }
        true
    }

    /// Subtracts a multiple of a row, which has numbers at these places, from another row.
    fn subtract(&mut self, other: usize, row: usize, factor: i128, places: &[usize]) -> bool {
        for place in places {
            let x = self.number(other, *place);
            let y = self.number(row, *place);
            match less(x, factor, y) {
                Some(number) => self.set(other, *place, number),
                None => return false,
            }
        }
        true
    }

    /// Divides a row by what its numbers and its denominator share.
    fn reduce(&mut self, row: usize) {
        let mut shared = self.denominator(row);
        for j in 0..self.columns {
            if shared != 1 {
                shared = shared_by(self.number(row, j), shared);
            }
        }
        if shared > 1 {
            for j in 0..self.columns {
                let number = divided(self.number(row, j), shared);
                self.set(row, j, number);
            }
            let number = divided(self.denominator(row), shared);
            put(&mut self.denominators, row, number);
        }
    }

    /// Solves a row for a column's variable.
    fn turn(&mut self, row: usize, column: usize, places: &[usize]) -> bool {
        let pivot = self.number(row, column);
        for place in places {
            match minus(0, self.number(row, *place)) {
                Some(number) => self.set(row, *place, number),
                None => return false,
            }
        }
        let denominator = self.denominator(row);
        self.set(row, column, denominator);
        put(&mut self.denominators, row, pivot);
        self.exchange(row, column);
        true
    }

    /// Exchanges the names of a row's and a column's variables.
    fn exchange(&mut self, row: usize, column: usize) {
        if row < self.basic.len() && 0 < column && column <= self.free.len() {
            let leaving = self.basic[row];
            self.basic[row] = self.free[column - 1];
            self.free[column - 1] = leaving;
        }
    }
}

/// How the next pivot is chosen, after so many of at most `most`.
fn choice_after(made: usize, most: usize) -> Choice {
    if made < PIVOTS_BY_INDEX || most / 2 <= made {
        Choice::Index
    } else {
        Choice::Fewest
    }
}

/// The numbers of rows, one row after the other.
fn numbers_of(alloc: Global, rows: &Rows) -> Result<Vec<i128>, AllocError> {
    let mut numbers = Vec::new(alloc);
    for row in rows.list.as_slice() {
        numbers.push(row.constant)?;
        numbers.extend_from_slice(row.coeffs.as_slice())?;
    }
    Ok(numbers)
}

/// `many` numbers, from one on.
fn counted(alloc: Global, from: usize, many: usize) -> Result<Vec<usize>, AllocError>
    requires { from + many < 2 ^ 64 }
{
    let mut numbers = Vec::new(alloc);
    for i in 0..many {
        numbers.push(from + i)?;
    }
    Ok(numbers)
}

/// A number less the product of two others, where all of these fit.
fn less(x: i128, factor: i128, y: i128) -> Option<i128> {
    minus(x, times(factor, y)?)
}

/// The least common multiple of two numbers above 0, or 0 where it does not fit.
fn multiple(a: i128, b: i128) -> i128 {
    times(a, divided(b, shared_by(a, b))).unwrap_or(0)
}

/// Puts a number at a place, if there is one.
fn put(numbers: &mut Vec<i128>, place: usize, number: i128) {
    if place < numbers.len() {
        numbers[place] = number;
    }
}

/// The number at a place, or 0 where there is none.
fn entry(counts: &[usize], place: usize) -> usize {
    if place < counts.len() {
        counts[place]
    } else {
        0
    }
}

/// Counts one more at a place, if there is one.
fn raise(counts: &mut Vec<usize>, place: usize) {
    if place < counts.len() {
        counts[place] = counts[place].saturating_add(1);
    }
}

/// Counts one less at a place, if there is one.
fn lower(counts: &mut Vec<usize>, place: usize) {
    if place < counts.len() {
        counts[place] = counts[place].saturating_sub(1);
    }
}

/// Puts a number at the place of the row of a slack variable, which come after `width` others.
fn put_slack(numbers: &mut Vec<i128>, width: usize, variable: usize, number: i128) {
    if width <= variable {
        put(numbers, variable - width, number);
    }
}
