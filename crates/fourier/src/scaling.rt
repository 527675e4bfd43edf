//! Fractions as whole numbers over their least common denominator.

ghost use Rattle.std.specs.Prelude.{◌≡◌, ◌*ℤ◌, ◌/◌, pos, ◌≤ℤ◌, unsigned_abs, map, length, IfOk, IfSome, SomeIff, OnErr, None, Some};
ghost use Rattle.exact128.specs.Fits.{Fits};
ghost use Rattle.exact128.specs.Gcd.{gcd};
ghost use Rattle.rational128.specs.Formulas.{fraction_of};
ghost use Rattle.linear_rows.specs.Solving.{common_of, made_whole};

use crate::fault::ValueFault;
use exact128::{gcd, quotient, times};
use linear_rows::Numbers;
use rational128::Ratio;
use std::alloc::Global;
use std::collections::VecDeque;

/// The least common multiple of the denominators, taken in order, where it fits.
pub fn common_of(values: &VecDeque<Ratio, Global>) -> Option<i128>
    ensures value { result ≡ common_of (pos 1) (map fraction_of values.now.items) }
    ensures positive { IfSome result (λ common. pos 1 ≤ℤ common) }
{
    let mut common = 1;
    for i in 0..values.len() {
        match multiple(common, values[i].den) {
            Some(more) => common = more,
            None => return None,
        }
    }
    Some(common)
}

/// The least common multiple of two numbers, where it fits.
fn multiple(a: i128, b: i128) -> Option<i128>
    requires a { pos 1 ≤ℤ a }
    requires b { pos 1 ≤ℤ b }
    ensures value { SomeIff result
        (Fits (pos (unsigned_abs a / gcd (unsigned_abs a) (unsigned_abs b)) *ℤ b))
        (pos (unsigned_abs a / gcd (unsigned_abs a) (unsigned_abs b)) *ℤ b) }
    ensures positive { IfSome result (λ common. pos 1 ≤ℤ common) }
{
    let shared = gcd(a.unsigned_abs(), b.unsigned_abs());
    times(quotient(a, shared), b)
}

/// The values times a common multiple of their denominators, where each product fits.
pub fn made_whole(
    alloc: Global,
    common: i128,
    values: &VecDeque<Ratio, Global>,
) -> Result<Numbers, ValueFault>
    requires { pos 1 ≤ℤ common }
    ensures numbers { IfOk result (λ numbers. made_whole common (map fraction_of values.now.items)
        ≡ Some numbers) }
    ensures long { IfOk result (λ numbers. length numbers ≡ length values.now.items) }
    ensures wide { result ≡ Err ValueFault.Wide
        → made_whole common (map fraction_of values.now.items) ≡ None }
{
    let mut numbers = Numbers::new(alloc);
    for i in 0..values.len() {
        let Some(number) = whole_number(common, values[i]) else {
            return Err(ValueFault::Wide);
        };
        numbers.push(number)?;
    }
    Ok(numbers)
}

/// A value times a common multiple of denominators, where it fits.
fn whole_number(common: i128, value: Ratio) -> Option<i128>
    requires { pos 1 ≤ℤ common }
    ensures { SomeIff result (Fits
        (value.num *ℤ pos (unsigned_abs common / unsigned_abs value.den)))
        (value.num *ℤ pos (unsigned_abs common / unsigned_abs value.den)) }
{
    times(value.num, quotient(common, value.den.unsigned_abs()))
}
