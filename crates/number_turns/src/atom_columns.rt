//! The columns of an atom.

ghost use Rattle.std.specs.Prelude.{◌≡◌, ◌↔◌, ◌≤ℤ◌, [], ℕ, IsTrue, None, Some, map, pos, slice_get, slice_index_or};
ghost use Rattle.std.specs.List.{AllByRecursion};
ghost use Rattle.exact128.specs.Sums.{entry};
ghost use Rattle.number_turns.specs.Demanding.{AreNatural};
ghost use Rattle.number_turns.specs.Recalled.{IsNatural, column_of, spelled};
ghost use Rattle.termination_model.specs.columns.ColumnRows.{or_empty};
ghost use Rattle.transitions.specs.StuckSets.{LacksAt};
ghost use Rattle.transitions.specs.Turns.{share_row};

use crate::feature::Feature;
use linear_rows::{Row, are_natural, number};
use sequences::Sequence;

/// A member, and the columns of an atom of it as rows over a clause's naturals. One without an expression has none.
#[derive(Drop)]
pub struct AtomColumns {
    pub member: u32,
    pub columns: Sequence<Option<Row>>,
}

/// Whether no number of a column is below 0.
fn is_natural(column: &Option<Row>) -> bool
    ensures { IsTrue result ↔ IsNatural (column_of column.now) }
{
    match column {
        Some(row) => row.constant >= 0 && are_natural(row.coeffs.as_slice()),
        None => true,
    }
}

impl AtomColumns {
    /// What a column counts in column `x` of the clause, which is 0 where it has no row. Columns are counted from 0.
    fn entry_at(&self, place: usize, x: usize) -> i128
        requires { AreNatural x self.now.columns }
        ensures entry { result ≡ entry (slice_index_or
            (map or_empty (map column_of self.now.columns)) place []) x }
        ensures natural { pos 0 ≤ℤ result }
    {
        if place >= self.columns.len() {
            return 0;
        }
        match self.columns.get(place) {
            Some(row) => number(row, x),
            None => 0,
        }
    }

    /// By what a number is multiplied in column `x` of the level of the atom.
    pub(crate) fn share(&self, feature: Feature, x: usize) -> i128
        requires { AreNatural x self.now.columns }
        ensures share { (n : ℕ) → result ≡ entry (share_row n self.now.member
            (map column_of self.now.columns) (spelled feature)) x }
        ensures natural { pos 0 ≤ℤ result }
    {
        if self.member != feature.member {
            return 0;
        }
        match feature.number.checked_sub(1) {
            Some(place) => self.entry_at(place as usize, x),
            None => i128::from(x == 0),
        }
    }

    /// Whether a column is there and has no row.
    fn is_missing(&self, place: usize) -> bool
        ensures { IsTrue result ↔ (slice_get (map column_of self.now.columns) place ≡ Some None) }
    {
        place < self.columns.len() && self.columns.get(place).is_none()
    }

    /// Whether there is no expression for the column of a number.
    pub(crate) fn lacks(&self, feature: Feature) -> bool
        ensures { IsTrue result ↔ LacksAt self.now.member
            (map column_of self.now.columns) (spelled feature) }
    {
        if self.member != feature.member {
            return false;
        }
        match feature.number.checked_sub(1) {
            Some(place) => self.is_missing(place as usize),
            None => false,
        }
    }

    /// Whether no number of the columns is below 0.
    pub(crate) fn is_natural(&self) -> bool
        ensures { IsTrue result ↔ AllByRecursion IsNatural (map column_of self.now.columns) }
    {
        for column in self.columns.as_slice() {
            if !is_natural(column) {
                return false;
            }
        }
        true
    }
}
