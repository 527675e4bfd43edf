//! Transitions of a component.

ghost use Rattle.std.specs.Prelude.{◌≡◌, ◌↔◌, IsTrue, true};
ghost use Rattle.linear_rows.specs.Blown.{all_of};
ghost use Rattle.linear_rows.specs.Plain.{plain_row};
ghost use Rattle.linear_rows.specs.Replacing.{row_fits};
ghost use Rattle.number_turns.specs.Recalled.{HasNumbers, recalled, spelled};
ghost use Rattle.transitions.specs.StuckSets.{Lacks};

use crate::atom_columns::AtomColumns;
use crate::feature::Feature;
use exact128::fits;
use linear_rows::{Row, Rows};

/// What measures see of a pair of a clause's head and a call of its body: the rows that are known before the call, over
/// as many naturals as they are wide, and the columns of the head and of the call.
pub struct Transition {
    pub rows: Rows,
    pub head: AtomColumns,
    pub call: AtomColumns,
}

impl Drop for Transition {
    fn drop(self) {
        let Transition {
            rows: _,
            head: _,
            call: _,
        } = self;
    }
}

/// Whether each of some numbers fits.
fn numbers_fit(numbers: &[i128]) -> bool
    ensures { result ≡ row_fits numbers.now }
{
    for number in numbers {
        if !fits(*number) {
            return false;
        }
    }
    true
}

/// Whether each number of some rows fits.
fn rows_fit(rows: &[Row]) -> bool
    ensures { result ≡ all_of (λ r. row_fits (plain_row r)) rows.now }
{
    for row in rows {
        if !fits(row.constant) || !numbers_fit(row.coeffs.as_slice()) {
            return false;
        }
    }
    true
}

impl Transition {
    /// Whether the numbers of the rows fit, and those of the columns are natural, as a turn needs them.
    pub fn has_numbers(&self) -> bool
        ensures { IsTrue result ↔ HasNumbers (recalled self.now) }
    {
        if !rows_fit(self.rows.list.as_slice()) {
            return false;
        }
        if !self.head.is_natural() {
            return false;
        }
        self.call.is_natural()
    }

    /// Whether the head or the call has no expression for the column of a number.
    pub fn lacks(&self, feature: Feature) -> bool
        ensures { IsTrue result ↔ Lacks (recalled self.now) (spelled feature) }
    {
        self.head.lacks(feature) || self.call.lacks(feature)
    }
}
