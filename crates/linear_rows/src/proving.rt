//! The test of multipliers, column by column.

ghost use Rattle.std.specs.Prelude.{◌≡◌, length, ◌<◌, ◌≤◌, SomeIff, All, pos, ◌≤ℤ◌, ◌+◌, ◌↔◌};
ghost use Rattle.exact128.specs.Fits.{Fits};
ghost use Rattle.linear_rows.specs.Proves.{goal_number, Proves, AllColumnsFit};
ghost use Rattle.linear_rows.specs.Verdict.{ColumnSays, Says};
ghost use Rattle.linear_rows.specs.Plain.{plain_row, plain_rows, HaveWidth};

use crate::columns::{column_sum, number};
use crate::multipliers::Proof;
use crate::row::{Row, Rows};
use exact128::{minus, times};

/// Tests whether rows, each times its multiplier, prove a target times a scale.
///
/// It goes over the columns, the constant first. For each it forms the products of multipliers and entries and their
/// running sum in the order of the rows, then the scale times the target's number, and the difference. With scale 0 the
/// row of constant -1 and coefficients 0 stands for the multiplied target: the rows are then shown to be empty. It
/// takes no memory.
///
/// Source: Farkas' lemma, as in Schrijver 1986.
pub fn proves(rows: &Rows, multipliers: &[i128], target: &Row, scale: i128) -> Proof
    requires lengths { length multipliers.now ≡ length rows.now.list }
    requires naturals { All (λ m. pos 0 ≤ℤ m) multipliers.now }
    requires scale { pos 0 ≤ℤ scale }
    requires width { HaveWidth rows.now.width rows.now.list }
    requires target { length target.now.coeffs ≡ rows.now.width }

    // Which answer it is: the first column decides that does not hold in numbers that fit.
    ensures says { Says (plain_rows rows.now.list) multipliers.now
        (plain_row target.now) scale result }

    // So Holds comes exactly where the target is proved and each number that is formed fits.
    ensures holds { (result ≡ Proof.Holds)
        ↔ (Proves (plain_rows rows.now.list) multipliers.now (plain_row target.now) scale
        × AllColumnsFit (plain_rows rows.now.list) multipliers.now
        (plain_row target.now) scale) }
{
    for k in 0..rows.width as usize + 1 {
        match test_column(rows.list.as_slice(), multipliers, target, scale, k) {
            Proof::Holds => {}
            Proof::Fails => return Proof::Fails,
            Proof::Wide => return Proof::Wide,
        }
    }
    Proof::Holds
}

/// The test of one column.
fn test_column(rows: &[Row], multipliers: &[i128], target: &Row, scale: i128, k: usize) -> Proof
    requires lengths { length multipliers.now ≡ length rows.now }
    requires column { All (λ r. k < length (plain_row r)) rows.now }
    requires target { k < length (plain_row target.now) }
    ensures { ColumnSays (plain_rows rows.now) multipliers.now
        (plain_row target.now) scale result k }
{
    let Some(sum) = column_sum(rows, multipliers, k) else {
        return Proof::Wide;
    };
    let Some(goal) = goal_number(target, scale, k) else {
        return Proof::Wide;
    };
    let Some(rest) = minus(goal, sum) else {
        return Proof::Wide;
    };
    if rest < 0 { Proof::Fails } else { Proof::Holds }
}

/// The number that the multiplied rows may not pass in a column, where it fits.
fn goal_number(target: &Row, scale: i128, k: usize) -> Option<i128>
    requires { k < length (plain_row target.now) }
    ensures { SomeIff result (Fits (goal_number scale (plain_row target.now) k))
        (goal_number scale (plain_row target.now) k) }
{
    if scale != 0 {
        times(scale, number(target, k))
    } else if k == 0 {
        Some(-1)
    } else {
        Some(0)
    }
}
