//! Sums, differences and products that fit.

ghost use Rattle.std.specs.Prelude.{◌≡◌, ◌*ℤ◌, ◌+ℤ◌, ◌-ℤ◌, SomeIff};
ghost use Rattle.exact128.specs.Fits.{Fits, fits};

// One more than the greatest absolute value that fits: 2^127.
const LIMIT: u128 = 0x8000_0000_0000_0000_0000_0000_0000_0000;

/// Whether a number fits, which is that it is not `i128::MIN`.
pub fn fits(a: i128) -> bool
    ensures { result ≡ fits a }
{
    a.unsigned_abs() < LIMIT
}

/// The product, where it fits.
pub fn times(a: i128, b: i128) -> Option<i128>
    ensures { SomeIff result (Fits (a *ℤ b)) (a *ℤ b) }
{
    match a.checked_mul(b) {
        Some(product) if product != i128::MIN => Some(product),
        _ => None,
    }
}

/// The sum, where it fits.
pub fn plus(a: i128, b: i128) -> Option<i128>
    ensures { SomeIff result (Fits (a +ℤ b)) (a +ℤ b) }
{
    match a.checked_add(b) {
        Some(sum) if sum != i128::MIN => Some(sum),
        _ => None,
    }
}

/// The difference `a - b`, where it fits.
pub fn minus(a: i128, b: i128) -> Option<i128>
    ensures { SomeIff result (Fits (a -ℤ b)) (a -ℤ b) }
{
    match a.checked_sub(b) {
        Some(rest) if rest != i128::MIN => Some(rest),
        _ => None,
    }
}
