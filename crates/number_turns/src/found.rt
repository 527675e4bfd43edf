//! The numbers of a mapping at a point of a template.

ghost use Rattle.std.specs.Prelude.{◌≡◌, ◌+◌, ◌≤◌, ◌≤ℤ◌, ℕ, All, IfOk, List, drop, length, map, pos, take, true};
ghost use Rattle.linear_rows.specs.Replacing.{row_fits};
ghost use Rattle.transitions.specs.Templates.{differences};

use crate::naturals::difference;
use linear_rows::Numbers;
use std::alloc::{AllocError, Global};

/// The numbers of a mapping, in the order in which they were given, and the multipliers that show what was asked of it:
/// for each transition in order those of its fall, one for each row, and where it is marked also those of the head's
/// level.
pub struct Found {
    pub numbers: Numbers,
    pub multipliers: Numbers,
}

impl Drop for Found {
    fn drop(self) {
        let Found {
            numbers: _,
            multipliers: _,
        } = self;
    }
}

/// The differences of the first of some naturals, as many as are given, and as many after them.
fn numbers_at(alloc: Global, w: &[i128], count: usize) -> Result<Numbers, AllocError>
    requires naturals { All (λ x. pos 0 ≤ℤ x) w.now }
    requires room { count + count ≤ length w.now }
    ensures numbers { IfOk result (λ numbers. (vs : List ℕ) → w.now ≡ map pos vs
        → numbers ≡ differences (take count vs) (take count (drop count vs))) }
    ensures fit { IfOk result (λ numbers. row_fits numbers ≡ true) }
{
    let mut numbers = Numbers::new(alloc);
    for i in 0..count {
        let more = w[i];
        let less = w[count + i];
        numbers.push(difference(more, less))?;
    }
    Ok(numbers)
}

/// The mapping at a point, with as many numbers as are given, and its multipliers.
pub(crate) fn found_at(alloc: Global, w: &[i128], count: usize) -> Result<Found, AllocError>
    requires naturals { All (λ x. pos 0 ≤ℤ x) w.now }
    requires room { count + count ≤ length w.now }
    ensures numbers { IfOk result (λ found. (vs : List ℕ) → w.now ≡ map pos vs
        → found.numbers ≡ differences (take count vs) (take count (drop count vs))) }
    ensures multipliers { IfOk result
        (λ found. found.multipliers ≡ drop count (drop count w.now)) }
    ensures fit { IfOk result (λ found. row_fits found.numbers ≡ true) }
{
    let numbers = numbers_at(alloc, w, count)?;
    let multipliers = Vec::from_slice(alloc, &w[count..][count..])?;
    Ok(Found {
        numbers,
        multipliers: Numbers::from_vec(multipliers),
    })
}
