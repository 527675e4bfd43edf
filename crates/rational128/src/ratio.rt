//! Fractions in lowest terms.

ghost use Rattle.std.specs.Prelude.{◌≡◌, ◌≢◌, pos, ◌*ℤ◌, ◌+ℤ◌, ◌≤ℤ◌, ◌<◌, ◌^◌, SomeIff, IfOk, OnErr, unsigned_abs};
ghost use Rattle.std.specs.Ordering.{int_cmp};
ghost use Rattle.exact128.specs.Fits.{Fits};
ghost use Rattle.exact128.specs.Gcd.{gcd};
ghost use Rattle.exact128.specs.Fractions.{signed_of, shared_of, scaled_of, OrderFits};

use exact128::{divided, gcd, plus, quotient, times};
use std::cmp::Ordering;

/// A number does not fit: its absolute value is above 2^127 - 1.
#[derive(Clone, Copy, PartialEq, Eq, Debug)]
pub struct Wide;

/// A fraction in lowest terms.
///
/// The denominator is at least 1, and both numbers have absolute values of at most 2^127 - 1. So two fractions are
/// equal exactly where their numerators and denominators are.
#[derive(Clone, Copy, PartialEq, Eq, Debug)]
pub struct Ratio {
    pub num: i128,
    pub den: i128,
    ghost positive: { pos 1 ≤ℤ den },
    ghost num_fits: { Fits num },
    ghost reduced: { gcd (unsigned_abs num) (unsigned_abs den) ≡ 1 },
}

// The greatest number that fits, 2^127 - 1.
const MOST: u128 = 0x7fff_ffff_ffff_ffff_ffff_ffff_ffff_ffff;

impl Ratio {
    ghost use Rattle.rational128.specs.Formulas.{Gives, fraction_of};
    ghost use Rattle.exact128.specs.Fractions.{ratio, sum, product, quotient};

    /// Makes the fraction `num / den`.
    pub fn new(num: i128, den: i128) -> Result<Ratio, Wide>
        requires { den ≢ pos 0 }
        ensures value { IfOk result (λ r. r.num *ℤ den ≡ num *ℤ r.den) }

        // Wide exactly where the fraction in lowest terms does not fit.
        ensures exact { Gives (ratio num den) result }
    {
        let (above, below) = (num.unsigned_abs(), den.unsigned_abs());
        let shared = gcd(above, below);
        let (top, bottom) = (above / shared, below / shared);
        if top > MOST || bottom > MOST {
            return Err(Wide);
        }
        Ok(Ratio {
            num: signed(top, num, den),
            den: bottom as i128,
        })
    }

    /// Adds two fractions.
    ///
    /// For `a/b` and `c/d`, with `g` the greatest common divisor of `b` and `d`, it forms `a*(d/g)`, `c*(b/g)`, their
    /// sum `s`, and the denominator `(b/g)*(d/h)` with `h` the greatest common divisor of `s` and `g`.
    ///
    /// Source: the sum of fractions in Knuth 1997, The Art of Computer Programming, volume 2.
    pub fn add(self, other: Ratio) -> Result<Ratio, Wide>
        ensures value { IfOk result (λ r. r.num *ℤ (self.den *ℤ other.den)
            ≡ (self.num *ℤ other.den +ℤ other.num *ℤ self.den) *ℤ r.den) }

        // Wide exactly where one of those numbers does not fit.
        ensures exact { Gives (sum (fraction_of self) (fraction_of other)) result }
    {
        let both = shared(self.den, other.den);
        let Some(left) = scaled(self.num, other.den, both) else {
            return Err(Wide);
        };
        let Some(right) = scaled(other.num, self.den, both) else {
            return Err(Wide);
        };
        let Some(sum) = plus(left, right) else {
            return Err(Wide);
        };
        let again = gcd(sum.unsigned_abs(), both);
        let Some(den) = scaled(quotient(self.den, both), other.den, again) else {
            return Err(Wide);
        };
        Ok(Ratio {
            num: divided(sum, again),
            den,
        })
    }

    /// Multiplies two fractions.
    pub fn mul(self, other: Ratio) -> Result<Ratio, Wide>
        ensures value { IfOk result (λ r. r.num *ℤ (self.den *ℤ other.den) ≡ (self.num *ℤ other.num) *ℤ r.den) }

        // Wide exactly where the product in lowest terms does not fit.
        ensures exact { Gives (product (fraction_of self) (fraction_of other)) result }
    {
        let across = shared(self.num, other.den);
        let back = shared(other.num, self.den);
        let Some(num) = times(divided(self.num, across), divided(other.num, back)) else {
            return Err(Wide);
        };
        let Some(den) = times(quotient(self.den, back), quotient(other.den, across)) else {
            return Err(Wide);
        };
        Ok(Ratio { num, den })
    }

    /// Divides by a fraction that is not 0.
    pub fn div(self, other: Ratio) -> Result<Ratio, Wide>
        requires { other.num ≢ pos 0 }
        ensures value { IfOk result (λ r. r.num *ℤ (self.den *ℤ other.num) ≡ (self.num *ℤ other.den) *ℤ r.den) }

        // Wide exactly where the quotient in lowest terms does not fit.
        ensures exact { Gives (quotient (fraction_of self) (fraction_of other)) result }
    {
        self.mul(other.inverse())
    }

    /// One over a fraction that is not 0.
    fn inverse(self) -> Ratio
        requires { self.num ≢ pos 0 }
        ensures num { result.num ≡ signed_of (unsigned_abs self.den) (pos 1) self.num }
        ensures den { result.den ≡ pos (unsigned_abs self.num) }
    {
        Ratio {
            num: signed(self.den.unsigned_abs(), 1, self.num),
            den: self.num.unsigned_abs() as i128,
        }
    }

    /// Compares two fractions.
    ///
    /// For `a/b` and `c/d`, with `g` the greatest common divisor of `b` and `d`, it compares `a*(d/g)` with `c*(b/g)`.
    pub fn cmp(self, other: Ratio) -> Result<Ordering, Wide>
        ensures value { IfOk result (λ o. o ≡ int_cmp (self.num *ℤ other.den) (other.num *ℤ self.den)) }

        // Wide exactly where one of those numbers does not fit.
        ensures fits { IfOk result (λ _. OrderFits self.num self.den other.num other.den) }
        ensures wide { OnErr result (OrderFits self.num self.den other.num other.den → ⊥) }
    {
        let common = shared(self.den, other.den);
        let Some(left) = scaled(self.num, other.den, common) else {
            return Err(Wide);
        };
        let Some(right) = scaled(other.num, self.den, common) else {
            return Err(Wide);
        };
        Ok(left.cmp(&right))
    }
}

/// What a number shares with a denominator.
#[tactic(auto, unfolding(exact128::specs::Fractions::shared_of))]
fn shared(b: i128, d: i128) -> u128
    requires d { pos 1 ≤ℤ d }
    ensures value { result ≡ shared_of b d }
    ensures some { 0 < result }
    ensures within { result < 2 ^ 127 }
{
    gcd(b.unsigned_abs(), d.unsigned_abs())
}

/// `a` times what is left of `d` without `part`.
#[tactic(auto, unfolding(exact128::specs::Fractions::scaled_of))]
fn scaled(a: i128, d: i128, part: u128) -> Option<i128>
    requires d { pos 1 ≤ℤ d }
    requires part { 0 < part }
    ensures { SomeIff result (Fits (scaled_of a d part)) (scaled_of a d part) }
{
    times(a, quotient(d, part))
}

/// The number of this size whose sign is that of `a / b`.
fn signed(size: u128, a: i128, b: i128) -> i128
    requires { size < 2 ^ 127 }
    ensures { result ≡ signed_of size a b }
{
    let unsigned = size as i128;
    if (a < 0) == (b < 0) {
        unsigned
    } else {
        -unsigned
    }
}
