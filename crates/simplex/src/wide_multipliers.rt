//! Multipliers of 384 bits, and their test in 768 bits.

ghost use Rattle.std.specs.Prelude.{◌≡◌, ◌+◌, ◌≤ℤ◌, ◌-ℤ◌, pos, suc, IfOk, OnOk, All, length, map, true};
ghost use Rattle.exact128.specs.Sums.{dot};
ghost use Rattle.exact384.specs.Value.{value_of};
ghost use Rattle.linear_rows.specs.Plain.{plain_row, plain_rows, HaveWidth};
ghost use Rattle.linear_rows.specs.Rows.{HoldsOn, column};
ghost use Rattle.linear_rows.specs.Proves.{goal_number};

use exact384::{Integer, is_sum_above};
use linear_rows::{Row, Rows, number};
use std::alloc::{AllocError, Global};

/// A multiplier for each row, and the scale of the row that they may show.
#[derive(Drop)]
pub struct WideMultipliers {
    pub scale: Integer,
    pub list: Vec<Integer>,
}

impl WideMultipliers {
    /// Whether these are seen to show a row: the multiplied rows sum to at most the row times the scale, in each
    /// column.
    pub fn show(&self, alloc: Global, rows: &Rows, row: &Row) -> Result<bool, AllocError>
        requires rows { HaveWidth rows.now.width rows.now.list }
        requires row { length row.now.coeffs ≡ rows.now.width }
        ensures { IfOk result (λ b. b ≡ true
            → HoldsOn (suc rows.now.width) (plain_rows rows.now.list) (plain_row row.now)) }
    {
        let list = self.list.as_slice();
        if list.len() != rows.list.len() || self.scale.is_negative() || !are_natural(list) {
            return Ok(false);
        }
        let mut numbers = Vec::with_capacity(alloc, rows.list.len())?;
        for place in 0..rows.width as usize + 1 {
            put_column(&mut numbers, rows, place)?;
            if !self.show_column(numbers.as_slice(), row, place) {
                return Ok(false);
            }
        }
        Ok(true)
    }

    /// Whether the multiplied numbers of a column sum to at most that of a row, times the scale. Scale 0 stands for the
    /// row that holds nowhere.
    fn show_column(&self, numbers: &[i128], row: &Row, place: usize) -> bool
        requires each { length numbers.now ≡ length self.now.list.items }
        ensures { result ≡ true → pos 0 ≤ℤ (goal_number (value_of self.now.scale) (plain_row row.now) place
            -ℤ dot (map value_of self.now.list.items) numbers.now) }
    {
        let list = self.list.as_slice();
        if self.scale.is_zero() && place == 0 {
            return !is_sum_above(list, numbers, Integer::ONE, -1);
        }
        !is_sum_above(list, numbers, self.scale, number(row, place))
    }
}

/// Whether no number is below 0.
pub fn are_natural(list: &[Integer]) -> bool
    ensures { result ≡ true → All (λ x. pos 0 ≤ℤ value_of x) list.now }
{
    for number in list {
        if number.is_negative() {
            return false;
        }
    }
    true
}

/// Puts the numbers of the rows at a place into a list, in the place of others.
fn put_column(numbers: &mut Vec<i128>, rows: &Rows, place: usize) -> Result<(), AllocError>
    ensures { OnOk result (numbers.new.items ≡ column (plain_rows rows.now.list) place) }
{
    numbers.truncate(0);
    for row in rows.list.as_slice() {
        numbers.push(number(row, place))?;
    }
    Ok(())
}
