//! Parts of a turn's multipliers.

ghost use Rattle.std.specs.Prelude.{◌≡◌, IfOk, drop, take};
ghost use Rattle.exact128.specs.Sums.{entry};

use linear_rows::{Numbers, Point};
use std::alloc::{AllocError, Global};

/// The numbers after the first ones.
pub(crate) fn after(numbers: &[i128], many: usize) -> &[i128]
    ensures { result.now ≡ drop many numbers.now }
{
    let many = many.min(numbers.len());
    &numbers[many..]
}

/// A copy of the first numbers.
pub(crate) fn first_of(alloc: Global, numbers: &[i128], many: usize) -> Result<Numbers, AllocError>
    ensures { IfOk result (λ first. first ≡ take many numbers.now) }
{
    let many = many.min(numbers.len());
    Ok(Numbers::from_vec(Vec::from_slice(alloc, &numbers[..many])?))
}

/// The point that numbers spell: t first.
pub(crate) fn point_of(alloc: Global, numbers: &[i128], width: usize) -> Result<Point, AllocError>
    ensures { IfOk result (λ p. p
        ≡ record { t = entry numbers.now 0; w = take width (drop 1 numbers.now) }) }
{
    let t = match numbers.first() {
        Some(number) => *number,
        None => 0,
    };
    let w = first_of(alloc, after(numbers, 1), width)?;
    Ok(Point { t, w })
}
