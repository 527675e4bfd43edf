//! The greatest common divisor, and divisions that leave no rest.

ghost use Rattle.std.specs.Prelude.{◌≡◌, ◌<◌, ◌≤◌, ◌^◌, ◌/◌, pos, ◌≤ℤ◌, unsigned_abs, int_div};
ghost use Rattle.std.specs.Int.{IsGcd};
ghost use Rattle.exact128.specs.Gcd.{gcd};

/// The greatest common divisor. That of 0 and 0 is 0.
///
/// Source: Euclid's algorithm.
pub fn gcd(a: u128, b: u128) -> u128
    ensures value { result ≡ gcd a b }
    ensures greatest { IsGcd a b result }
    ensures some { 0 < b → 0 < result }
    ensures within { 0 < b → result ≤ b }
{
    let mut x = a;
    let mut y = b;
    while y != 0 {
        let rest = x % y;
        x = y;
        y = rest;
    }
    x
}

/// How many times `part` goes into the positive number `n`.
pub fn quotient(n: i128, part: u128) -> i128
    requires positive { pos 1 ≤ℤ n }
    requires some { 0 < part }
    ensures { result ≡ pos (unsigned_abs n / part) }
{
    (n.unsigned_abs() / part) as i128
}

/// The number `n` divided by `part`, rounded toward 0.
pub fn divided(n: i128, part: u128) -> i128
    requires some { 0 < part }
    requires fits { part < 2 ^ 127 }
    ensures { result ≡ int_div n (pos part) }
{
    n / part as i128
}
