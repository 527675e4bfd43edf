//! Numbers that are appended to lists of numbers.

ghost use Rattle.std.specs.Prelude.{◌≡◌, ◌≢◌, ◌++◌, ◌∷◌, ◌-◌, ◌^◌, OnOk, All, negsuc, neg_ℤ};
ghost use Rattle.linear_rows.specs.Solving.{zeros};
ghost use Rattle.linear_rows.specs.Systems.{opposite};
ghost use Rattle.redundant_rows.specs.Negating.{IsNegatable};

use linear_rows::Numbers;
use std::alloc::AllocError;

/// Appends the given number of numbers 0.
pub fn push_zeros(numbers: &mut Numbers, count: usize) -> Result<(), AllocError>
    ensures { OnOk result (numbers.new ≡ numbers.old ++ zeros count) }
{
    for k in 0..count {
        numbers.push(0)?;
    }
    Ok(())
}

/// Appends a number between the given number of numbers 0 before it and after it.
pub fn push_alone(
    numbers: &mut Numbers,
    before: usize,
    number: i128,
    after: usize,
) -> Result<(), AllocError>
    ensures { OnOk result (numbers.new ≡ numbers.old ++ (zeros before ++ number ∷ zeros after)) }
{
    push_zeros(numbers, before)?;
    numbers.push(number)?;
    push_zeros(numbers, after)
}

/// Appends the numbers of a list.
pub fn push_all(numbers: &mut Numbers, more: &Numbers) -> Result<(), AllocError>
    ensures { OnOk result (numbers.new ≡ numbers.old ++ more.now) }
{
    for k in 0..more.len() {
        numbers.push(more.entry(k))?;
    }
    Ok(())
}

/// Appends the numbers of a list, each with the other sign.
pub fn push_opposite(numbers: &mut Numbers, more: &Numbers) -> Result<(), AllocError>
    requires { All IsNegatable more.now }
    ensures { OnOk result (numbers.new ≡ numbers.old ++ opposite more.now) }
{
    for k in 0..more.len() {
        numbers.push(opposite_of(more.entry(k)))?;
    }
    Ok(())
}

/// The number with the other sign.
pub fn opposite_of(number: i128) -> i128
    requires { IsNegatable number }
    ensures { result ≡ neg_ℤ number }
{
    -number
}
