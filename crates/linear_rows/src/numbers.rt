//! Lists of numbers.

ghost use Rattle.std.specs.Prelude.{◌≡◌, ◌↔◌, ◌≤ℤ◌, All, IfOk, IsTrue, pos};
ghost use Rattle.linear_rows.specs.Solving.{zeros as zero_numbers};

use sequences::Sequence;
use std::alloc::{AllocError, Global};

/// A list of numbers, which count as 0 past its end.
pub type Numbers = Sequence<i128>;

/// The list of the given number of zeros.
pub fn zeros(alloc: Global, count: usize) -> Result<Numbers, AllocError>
    ensures { IfOk result (λ n. n ≡ zero_numbers count) }
{
    let items = vec![in alloc; 0; count]?;
    Ok(Sequence::from_vec(items))
}

/// Whether no number is below 0.
pub fn are_natural(numbers: &[i128]) -> bool
    ensures { IsTrue result ↔ All (λ x. pos 0 ≤ℤ x) numbers.now }
{
    for number in numbers {
        if *number < 0 {
            return false;
        }
    }
    true
}
