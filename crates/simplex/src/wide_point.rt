//! Points of 384 bits, and their test in 768 bits.

ghost use Rattle.std.specs.Prelude.{◌≡◌, ◌+◌, ◌≤ℤ◌, pos, negsuc, int_lt, IfOk, OnOk, All, length, map, true};
ghost use Rattle.exact128.specs.Sums.{dot};
ghost use Rattle.exact384.specs.Value.{value_of};
ghost use Rattle.linear_rows.specs.Plain.{plain_row, plain_rows, HaveWidth};
ghost use Rattle.linear_rows.specs.Irredundant.{Fails};
ghost use Rattle.simplex.specs.Telling.{IsWidePoint};

use crate::integers::spell;
use crate::wide_multipliers::are_natural;
use exact384::{Integer, is_sum_above};
use linear_rows::{Row, Rows};
use std::alloc::{AllocError, Global};

/// A point of rows: its numbers, of which the first is the t of a point.
#[derive(Drop)]
pub struct WidePoint {
    pub numbers: Vec<Integer>,
}

impl WidePoint {
    /// Whether a row is seen to fail here, where all rows are seen to hold.
    pub fn refutes(&self, alloc: Global, rows: &Rows, row: &Row) -> Result<bool, AllocError>
        requires rows { HaveWidth rows.now.width rows.now.list }
        requires row { length row.now.coeffs ≡ rows.now.width }
        ensures { IfOk result (λ b. b ≡ true
            → Fails rows.now.width (plain_rows rows.now.list) (plain_row row.now)) }
    {
        if !self.is_point(rows.width) {
            return Ok(false);
        }
        let mut numbers = Vec::with_capacity(alloc, self.numbers.len())?;
        spell(&mut numbers, row)?;
        if self.meets(numbers.as_slice()) {
            return Ok(false);
        }
        self.meets_all(rows, &mut numbers)
    }

    /// Whether this is a point of naturals over this number of columns.
    fn is_point(&self, width: u32) -> bool
        ensures { result ≡ true → IsWidePoint width (map value_of self.now.numbers.items) }
    {
        let numbers = self.numbers.as_slice();
        if numbers.len() != width as usize + 1 {
            return false;
        }
        is_above_zero(numbers[0]) && are_natural(numbers)
    }

    /// Whether each row holds here. `numbers` is room for those of a row.
    fn meets_all(&self, rows: &Rows, numbers: &mut Vec<i128>) -> Result<bool, AllocError>
        requires rows { HaveWidth rows.now.width rows.now.list }
        requires numbers { length self.now.numbers.items ≡ rows.now.width + 1 }
        ensures { IfOk result (λ b. b ≡ true
            → All (λ r. pos 0 ≤ℤ dot (map value_of self.now.numbers.items) r) (plain_rows rows.now.list)) }
    {
        for row in rows.list.as_slice() {
            spell(numbers, row)?;
            if !self.meets(numbers.as_slice()) {
                return Ok(false);
            }
        }
        Ok(true)
    }

    /// Whether the row of these numbers holds here.
    fn meets(&self, numbers: &[i128]) -> bool
        requires { length numbers.now ≡ length self.now.numbers.items }
        ensures { result ≡ int_lt (negsuc 0) (dot (map value_of self.now.numbers.items) numbers.now) }
    {
        is_sum_above(self.numbers.as_slice(), numbers, Integer::ONE, -1)
    }
}

/// Whether a number is above 0.
fn is_above_zero(number: Integer) -> bool
    ensures { result ≡ int_lt (pos 0) (value_of number) }
{
    Integer::ZERO.is_less(number)
}
