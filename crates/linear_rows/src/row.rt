//! Rows and lists of them.

ghost use Rattle.std.specs.Prelude.{◌≡◌, length, [], ◌∷◌, ◌++◌, OnOk, OnErr, IfOk, IfSome};
ghost use Rattle.exact128.specs.Sums.{dot};

use crate::numbers::{Numbers, zeros};
use exact128::{plus, sum_of_products, times};
use sequences::Sequence;
use std::alloc::{AllocError, Global};

/// A linear row: the constant and the products of the coefficients with the variables sum to at least 0.
#[derive(Drop)]
pub struct Row {
    pub constant: i128,
    pub coeffs: Numbers,
}

impl Row {
    ghost use Rattle.linear_rows.specs.Plain.{plain_row};
    ghost use Rattle.linear_rows.specs.Showing.{bottom_row};

    /// Makes the row of the given number of coefficients that holds nowhere: its constant is -1, and its coefficients
    /// are 0.
    pub fn bottom(alloc: Global, width: u32) -> Result<Row, AllocError>
        ensures { IfOk result (λ r. plain_row r ≡ bottom_row width) }
    {
        let coeffs = zeros(alloc, width as usize)?;
        Ok(Row {
            constant: -1,
            coeffs,
        })
    }

    /// The value at `w` over `t`, times `t`, if `w` has as many numbers as there are coefficients and all that is
    /// formed fits.
    ///
    /// None says nothing of the value.
    pub fn value_at(&self, t: i128, w: &[i128]) -> Option<i128>
        ensures { IfSome result (λ value. value ≡ dot (plain_row self.now) (t ∷ w.now)) }
    {
        if w.len() != self.coeffs.len() {
            return None;
        }
        let products = sum_of_products(self.coeffs.as_slice(), w)?;
        plus(times(self.constant, t)?, products)
    }

    /// Makes a copy.
    pub fn copy(&self, alloc: Global) -> Result<Row, AllocError>
        ensures { IfOk result (λ r. r ≡ self.now) }
    {
        let coeffs = self.coeffs.copy(alloc)?;
        Ok(Row {
            constant: self.constant,
            coeffs,
        })
    }

    /// Copies the numbers, the constant first.
    pub fn numbers(&self, alloc: Global) -> Result<Sequence<i128>, AllocError>
        ensures { IfOk result (λ numbers. numbers ≡ plain_row self.now) }
    {
        let coeffs = self.coeffs.as_slice();
        let mut numbers = Vec::with_capacity(alloc, coeffs.len() + 1)?;
        numbers.push(self.constant)?;
        numbers.extend_from_slice(coeffs)?;
        Ok(Sequence::from_vec(numbers))
    }
}

/// A list of rows.
pub type RowList = Sequence<Row>;

/// A copy of rows.
fn copy_rows(alloc: Global, rows: &RowList) -> Result<RowList, AllocError>
    ensures { IfOk result (λ copy. copy ≡ rows.now) }
{
    let mut copy = Sequence::new(alloc);
    for row in rows.as_slice() {
        copy.push(row.copy(alloc)?)?;
    }
    Ok(copy)
}

/// Rows of `width` coefficients each.
#[derive(Drop)]
pub struct Rows {
    pub width: u32,
    pub list: RowList,
}

impl Rows {
    ghost use Rattle.linear_rows.specs.Plain.{HaveWidth};

    /// Makes an empty list of rows of a width.
    pub fn new(alloc: Global, width: u32) -> Self
        ensures width { result.width ≡ width }
        ensures list { result.list ≡ [] }
    {
        Rows {
            width,
            list: RowList::new(alloc),
        }
    }

    /// Appends a row of the width.
    pub fn push(&mut self, row: Row) -> Result<(), AllocError>
        requires { length row.coeffs ≡ self.old.width }
        ensures ok { OnOk result (self.new.list ≡ self.old.list ++ row ∷ []) }
        ensures err { OnErr result (self.new.list ≡ self.old.list) }
        ensures width { self.new.width ≡ self.old.width }
        ensures rows { HaveWidth self.old.width self.old.list
            → HaveWidth self.new.width self.new.list }
    {
        self.list.push(row)
    }

    /// Makes a copy.
    pub fn copy(&self, alloc: Global) -> Result<Rows, AllocError>
        ensures { IfOk result (λ r. r ≡ self.now) }
    {
        let list = copy_rows(alloc, &self.list)?;
        Ok(Rows {
            width: self.width,
            list,
        })
    }
}
