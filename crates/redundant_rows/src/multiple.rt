//! Whether a row is at least a multiple of another one, so that it holds wherever the other does.

ghost use Rattle.std.specs.Prelude.{◌≡◌, ◌≤ℤ◌, ◌*ℤ◌, ◌-ℤ◌, pos, IfSome, length, true};
ghost use Rattle.exact128.specs.Sums.{entry};
ghost use Rattle.linear_rows.specs.Plain.{plain_row};
ghost use Rattle.redundant_rows.specs.Multiples.{IsNatural, IsMultiple};

use exact128::times;
use linear_rows::Row;
use rational128::Ratio;

/// Whether no number of a row is below 0.
pub(crate) fn is_natural(row: &Row) -> bool
    ensures { result ≡ true → IsNatural (plain_row row.now) }
{
    if row.constant < 0 {
        return false;
    }
    for k in 0..row.coeffs.len() {
        if row.coeffs.entry(k) < 0 {
            return false;
        }
    }
    true
}

/// How many times the other row a row is at least, in each column.
///
/// It tries the least number of times for which that is so in the columns where both rows are below 0. There is none
/// also where a number does not fit.
pub(crate) fn multiple(row: &Row, other: &Row) -> Option<Ratio>
    ensures { IfSome result (λ r. IsMultiple (plain_row row.now)
        (plain_row other.now) r.num r.den) }
{
    let Some(most) = greatest_quotient(row, other) else {
        return None;
    };
    if is_at_least(row, other, most) {
        Some(most)
    } else {
        None
    }
}

/// The greatest quotient of two numbers below 0 in one column, if the signs let the row be a multiple.
fn greatest_quotient(row: &Row, other: &Row) -> Option<Ratio> {
    let none = Quotient { num: 0, den: -1 };
    let Some(mut most) = none.or_greater(row.constant, other.constant) else {
        return None;
    };
    for k in 0..row.coeffs.len() {
        let Some(next) = most.or_greater(row.coeffs.entry(k), other.coeffs.entry(k)) else {
            return None;
        };
        most = next;
    }
    if most.den == 0 {
        return None;
    }
    Ratio::new(most.num, most.den).ok()
}

// A quotient of two numbers, of which neither is above 0.
#[derive(Clone, Copy)]
struct Quotient {
    num: i128,
    den: i128,
}

impl Quotient {
    /// The greater one of this quotient and that of two numbers below 0, or none where a row with this number is no
    /// multiple of one with the other.
    fn or_greater(self, number: i128, other: i128) -> Option<Quotient> {
        if number >= 0 {
            return if number == 0 && other > 0 {
                None
            } else {
                Some(self)
            };
        }
        if other >= 0 {
            return None;
        }
        let (Some(new), Some(old)) = (times(number, self.den), times(self.num, other)) else {
            return None;
        };
        let quotient = Quotient {
            num: number,
            den: other,
        };
        Some(if new > old { quotient } else { self })
    }
}

/// Whether a row is at least a given multiple of another one, in each column, by numbers that fit.
fn is_at_least(row: &Row, other: &Row, ratio: Ratio) -> bool
    ensures { result ≡ true → IsMultiple (plain_row row.now)
        (plain_row other.now) ratio.num ratio.den }
{
    if ratio.num < 0 || !number_is_at_least(row.constant, other.constant, ratio) {
        return false;
    }
    for k in 0..row.coeffs.len() {
        if !number_is_at_least(row.coeffs.entry(k), other.coeffs.entry(k), ratio) {
            return false;
        }
    }
    true
}

/// Whether a number is at least a given multiple of another one, by numbers that fit.
fn number_is_at_least(number: i128, other: i128, ratio: Ratio) -> bool
    ensures { result ≡ true → (ratio.num *ℤ other) ≤ℤ (ratio.den *ℤ number) }
{
    match (times(ratio.num, other), times(ratio.den, number)) {
        (Some(low), Some(high)) => low <= high,
        _ => false,
    }
}
