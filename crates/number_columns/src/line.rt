//! Rows that are made number by number, as long as these fit.

ghost use Rattle.std.specs.Prelude.{◌≡◌, ◌++◌, ◌∷◌, [], IfOk, List, OnOk, pos, ℕ, ℤ};
ghost use Rattle.linear_rows.specs.Replacing.{IsRowIfFits};
ghost use Rattle.number_columns.specs.Cells.{IsCapped, capped};
ghost use Rattle.number_columns.specs.Lines.{AreLines, IsLine, IsNarrowed};

use crate::parts::Parts;
use linear_rows::{Numbers, Row};
use std::alloc::{AllocError, Global};

/// The numbers of a row so far. It has a constant, and is a row while all of them fit.
#[derive(Drop)]
pub(crate) struct Line {
    constant: i128,
    coeffs: Numbers,
    /// Whether each number has at most 127 bits.
    fits: bool,
}

/// A number of at most 127 bits, or none.
fn narrowed(number: u128) -> Option<i128>
    ensures { (n : ℕ) → number ≡ capped n → IsNarrowed (pos n) result }
{
    i128::try_from(number).ok()
}

impl Line {
    /// A line with a constant alone.
    pub(crate) fn new(alloc: Global, constant: u128) -> Line
        ensures { (n : ℕ) → constant ≡ capped n → IsLine (pos n ∷ []) result }
    {
        let narrow = narrowed(constant);
        Line {
            constant: narrow.unwrap_or(0),
            coeffs: Numbers::new(alloc),
            fits: narrow.is_some(),
        }
    }

    /// Adds a number.
    pub(crate) fn push(&mut self, number: u128) -> Result<(), AllocError>
        ensures { OnOk result ((zs : List ℤ) (n : ℕ) → number ≡ capped n
            → IsLine zs self.old → IsLine (zs ++ pos n ∷ []) self.new) }
    {
        match narrowed(number) {
            Some(narrow) => self.coeffs.push(narrow)?,
            None => self.fits = false,
        }
        Ok(())
    }

    /// Adds the three numbers of a variable, of which all but the first are 0.
    pub(crate) fn push_variable(&mut self, number: u128) -> Result<(), AllocError>
        ensures { OnOk result ((zs : List ℤ) (n : ℕ) → number ≡ capped n
            → IsLine zs self.old → IsLine (zs ++ pos n ∷ (pos 0 ∷ (pos 0 ∷ []))) self.new) }
    {
        self.push(number)?;
        self.push(0)?;
        self.push(0)?;
        Ok(())
    }

    /// The row, where all its numbers fit.
    pub(crate) fn into_row(self) -> Option<Row>
        ensures { (zs : List ℤ) → IsLine zs self → IsRowIfFits zs result }
    {
        let Line {
            constant,
            coeffs,
            fits,
        } = self;
        if fits {
            Some(Row { constant, coeffs })
        } else {
            None
        }
    }
}

/// The rows of what a value has above 0 and below.
pub(crate) struct Lines {
    above: Line,
    below: Line,
}

impl Drop for Lines {
    fn drop(self) {
        let Lines { above: _, below: _ } = self;
    }
}

impl Lines {
    /// Lines with their constants alone.
    pub(crate) fn new(alloc: Global, constants: Parts) -> Lines
        ensures { (p : ℕ × ℕ) → IsCapped p constants
            → AreLines (pos p.0 ∷ []) (pos p.1 ∷ []) result }
    {
        Lines {
            above: Line::new(alloc, constants.above),
            below: Line::new(alloc, constants.below),
        }
    }

    /// Adds a number to each.
    pub(crate) fn push(&mut self, numbers: Parts) -> Result<(), AllocError>
        ensures { OnOk result ((zs ws : List ℤ) (p : ℕ × ℕ) → IsCapped p numbers
            → AreLines zs ws self.old
            → AreLines (zs ++ pos p.0 ∷ []) (ws ++ pos p.1 ∷ []) self.new) }
    {
        self.above.push(numbers.above)?;
        self.below.push(numbers.below)
    }

    /// The rows, each where all its numbers fit.
    pub(crate) fn into_rows(self) -> (Option<Row>, Option<Row>)
        ensures { (zs ws : List ℤ) → AreLines zs ws self
            → IsRowIfFits zs result.0 × IsRowIfFits ws result.1 }
    {
        let Lines { above, below } = self;
        (above.into_row(), below.into_row())
    }
}
