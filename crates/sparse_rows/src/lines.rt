//! Lists of rows.

ghost use Rattle.std.specs.Prelude.{◌≡◌, ℕ, length, ◌<◌, ◌≤◌, slice_index_or, [], ◌∷◌, ◌++◌, OnOk, take, drop, suc, true, false, IfOk};
ghost use Rattle.linear_rows.specs.Blown.{all_of, numbers_fit};
ghost use Rattle.linear_rows.specs.Cleaning.{agree};
ghost use Rattle.linear_rows.specs.Equation.{negates, place_of};
ghost use Rattle.sparse_rows.specs.Adding.{AllFit};
ghost use Rattle.sparse_rows.specs.Small.{small};

use crate::line::Line;
use crate::marks::{FLAGS, is_up, raise};
use std::alloc::{AllocError, Global};
use std::marker::Model;

/// Rows, each seen as the list of its numbers.
///
/// Each row has a mark, so that a row with given coefficients, or with their negations, is found without looking into
/// most of the others.
pub struct Lines {
    items: Vec<Line>,
    // The marks of the rows are those of the columns 1 to this one.
    last: usize,
    marks: Vec<u32>,
    // Where there are flags, those of the rows' marks are up, and perhaps others.
    flags: Vec<bool>,
}

impl Drop for Lines {
    fn drop(self) {
        let Lines {
            items: _,
            last: _,
            marks: _,
            flags: _,
        } = self;
    }
}

impl Model for Lines {
    ghost use Rattle.std.specs.Prelude.{◌≡◌, ℤ, List, map};
    ghost use Rattle.sparse_rows.specs.Marks.{mark_of, AreUp};

    ghost Value = { List (List ℤ) };

    ghost view = { λ n. n.items.items };

    ghost invariant = { λ n. (n.marks.items ≡ map (mark_of n.last) n.items.items) × AreUp n.flags.items n.marks.items };
}

impl Lines {
    /// Makes the empty list of rows that are looked for by their columns 1 to `last`.
    pub fn marked(alloc: Global, last: usize) -> Self
        ensures { result ≡ [] }
    {
        Lines {
            items: Vec::new(alloc),
            last,
            marks: Vec::new(alloc),
            flags: Vec::new(alloc),
        }
    }

    /// Makes the empty list of rows, of which many are expected, that are looked for by their columns 1 to `last`.
    pub fn flagged(alloc: Global, last: usize) -> Result<Self, AllocError>
        ensures { IfOk result (λ rows. rows ≡ []) }
    {
        let flags = vec![in alloc; false; FLAGS]?;
        Ok(Lines {
            items: Vec::new(alloc),
            last,
            marks: Vec::new(alloc),
            flags,
        })
    }

    /// How many rows there are.
    pub fn len(&self) -> usize
        ensures { result ≡ length self.now }
    {
        self.items.len()
    }

    /// The row at a place.
    pub fn get(&self, k: usize) -> &Line
        requires { k < length self.now }
        ensures { result.now ≡ slice_index_or self.now k [] }
    {
        &self.items[k]
    }

    /// Appends a row.
    pub fn push(&mut self, row: Line) -> Result<(), AllocError>
        ensures { OnOk result (self.new ≡ self.old ++ row ∷ []) }
    {
        self.marks.reserve(1)?;
        let mark = row.mark(self.last);
        self.items.push(row)?;
        raise(&mut self.flags, mark);
        self.marks.push(mark)?;
        Ok(())
    }

    /// Takes the row at a place out.
    pub fn remove(&mut self, k: usize)
        requires { k < length self.old }
        ensures { self.new ≡ take k self.old ++ drop (suc k) self.old }
    {
        self.items.remove(k);
        self.marks.remove(k);
    }

    /// The place of the first row with the numbers of `row` in the columns 1 to `last`, or the number of rows.
    pub fn place_of(&self, row: &Line, last: usize) -> usize
        ensures within { result ≤ length self.now }
        ensures before { (j : ℕ) → j < result → agree last (slice_index_or self.now j []) row.now
            ≡ false }
        ensures here { result < length self.now
            → agree last (slice_index_or self.now result []) row.now ≡ true }
    {
        let mark = row.mark(self.last);
        let is_marked = self.last == last;
        if is_marked && !is_up(self.flags.as_slice(), mark) {
            return self.len();
        }
        for (i, own) in self.marks.iter().enumerate() {
            if (!is_marked || *own == mark) && self.get(i).agrees(row, last) {
                return i;
            }
        }
        self.len()
    }

    /// The place of the first row that is the one at place `i` negated in the columns below `many`, or the number of
    /// rows.
    pub fn negation_of(&self, i: usize, many: usize) -> usize
        requires place { i < length self.now }
        requires fit { AllFit self.now }
        ensures { result ≡ place_of (λ s. negates many (slice_index_or self.now i []) s) self.now }
    {
        let row = self.get(i);
        let mark = self.marks[i];
        let is_short = many <= self.last;
        for (j, own) in self.marks.iter().enumerate() {
            if (is_short || *own == mark) && row.negates(self.get(j), many) {
                return j;
            }
        }
        self.len()
    }

    /// Whether each number fits.
    pub fn fit(&self) -> bool
        ensures value { result ≡ numbers_fit self.now }
        ensures fit { result ≡ true → AllFit self.now }
    {
        for i in 0..self.len() {
            if !self.get(i).fits() {
                return false;
            }
        }
        true
    }

    /// Whether each number is small.
    pub fn are_small(&self) -> bool
        ensures { result ≡ all_of (all_of small) self.now }
    {
        for i in 0..self.len() {
            if !self.get(i).is_small() {
                return false;
            }
        }
        true
    }
}
