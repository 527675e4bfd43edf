//! Tests of numbers, in the words of the definitions.

ghost use Rattle.std.specs.Prelude.{◌≡◌, pos, neg_ℤ, int_le};
ghost use Rattle.exact128.specs.Fits.{Fits};
ghost use Rattle.linear_rows.specs.Elimination.{is_positive, is_negative, is_zero};
ghost use Rattle.linear_rows.specs.Cleaning.{int_same};
ghost use Rattle.sparse_rows.specs.Small.{small};

// One more than the greatest absolute value of a small number: 2^62.
const SMALL_LIMIT: u128 = 0x4000_0000_0000_0000;

/// Whether a number is above 0.
pub fn is_positive(x: i128) -> bool
    ensures { result ≡ is_positive x }
{
    x > 0
}

/// Whether a number is below 0.
pub fn is_negative(x: i128) -> bool
    ensures { result ≡ is_negative x }
{
    x < 0
}

/// Whether a number is 0.
pub fn is_zero(x: i128) -> bool
    ensures { result ≡ is_zero x }
{
    x == 0
}

/// Whether two numbers are equal.
pub fn same(x: i128, y: i128) -> bool
    ensures { result ≡ int_same x y }
{
    x == y
}

/// Whether `y` is `x` negated.
pub fn opposite(x: i128, y: i128) -> bool
    requires { Fits x }
    ensures { result ≡ int_same y (neg_ℤ x) }
{
    y == -x
}

/// Whether a number is so small that no sum of two products of such numbers is too large.
pub fn is_small(x: i128) -> bool
    ensures { result ≡ small x }
{
    x.unsigned_abs() < SMALL_LIMIT
}

/// Whether `x` is at most `y`.
pub fn at_most(x: i128, y: i128) -> bool
    ensures { result ≡ int_le x y }
{
    x <= y
}

/// The number with the other sign.
pub fn negated(x: i128) -> i128
    requires { Fits x }
    ensures { result ≡ neg_ℤ x }
{
    -x
}
