//! Common divisors of numbers.

use exact128::gcd;

/// The greatest common divisor of two numbers, or 0 where it does not fit.
pub fn shared_by(a: i128, b: i128) -> i128 {
    i128::try_from(gcd(a.unsigned_abs(), b.unsigned_abs())).unwrap_or(0)
}

/// The greatest common divisor of numbers, or 0 where it does not fit.
fn shared_of(numbers: &[i128]) -> i128 {
    let mut shared = 0;
    for number in numbers {
        if shared != 1 {
            shared = shared_by(*number, shared);
        }
    }
    shared
}

/// A number divided by one that goes into it, or 0 where that is 0.
pub fn divided(number: i128, part: i128) -> i128 {
    number.checked_div(part).unwrap_or(0)
}

/// Divides numbers by what they share.
pub fn divide(numbers: &mut Vec<i128>) {
    let shared = shared_of(numbers.as_slice());
    if shared > 1 {
        for i in 0..numbers.len() {
            numbers[i] = divided(numbers[i], shared);
        }
    }
}
