//! Worked rows: each call once, and the edges of what fits.

use rational128::{Ratio, Wide};
use std::cmp::Ordering;

/// A numerator and a denominator.
type Pair = (i128, i128);

// The greatest number that fits.
const MOST: Pair = (i128::MAX, 1);

/// A call of two fractions.
#[derive(Clone, Copy)]
enum Call {
    Sum,
    Product,
    Quotient,
}

/// The fraction of a pair whose denominator is not 0.
fn ratio(pair: Pair) -> Result<Ratio, Wide> {
    let (num, den) = pair;
    if den == 0 {
        Err(Wide)
    } else {
        Ratio::new(num, den)
    }
}

/// What a call of the fractions of two pairs gives.
fn called(call: Call, left: Pair, right: Pair) -> Result<Ratio, Wide> {
    let (left, right) = (ratio(left)?, ratio(right)?);
    match call {
        Call::Sum => left.add(right),
        Call::Product => left.mul(right),
        Call::Quotient if right.num != 0 => left.div(right),
        Call::Quotient => Err(Wide),
    }
}

/// The pair of a fraction, if it fits.
fn pair(found: Result<Ratio, Wide>) -> Option<Pair> {
    let found = found.ok()?;
    Some((found.num, found.den))
}

/// The order of the fractions of two pairs, if it is found.
fn order(left: Pair, right: Pair) -> Option<Ordering> {
    ratio(left).ok()?.cmp(ratio(right).ok()?).ok()
}

/// Calls of two fractions, and what they give.
const CALLS: [(Call, Pair, Pair, Option<Pair>); 6] = [
    (Call::Sum, (1, 3), (1, 6), Some((1, 2))),
    (Call::Product, (1, 3), (-3, -6), Some((1, 6))),
    (Call::Quotient, (-3, -6), (1, 3), Some((3, 2))),
    (Call::Sum, MOST, (1, 1), None),
    (Call::Product, MOST, (2, 1), None),
    // What is shared goes first.
    (Call::Product, MOST, (2, i128::MAX), Some((2, 1))),
];

#[test]
fn calls_of_fractions(rt: HostRuntime) {
    for (call, left, right, want) in &CALLS {
        assert!(rt;
            pair(called(*call, *left, *right)) == *want,
            "{left:?} and {right:?}"
        );
    }
}

/// Pairs, and the fractions that they are in lowest terms.
const FRACTIONS: [(Pair, Option<Pair>); 4] = [
    ((-3, -6), Some((1, 2))),
    (MOST, Some(MOST)),
    ((i128::MIN, 1), None),
    ((i128::MIN, 2), Some((-(1 << 126), 1))),
];

#[test]
fn fractions_that_fit(rt: HostRuntime) {
    for (given, want) in &FRACTIONS {
        assert!(rt; pair(ratio(*given)) == *want, "{given:?}");
    }
    assert!(rt; order((1, 3), (1, 2)) == Some(Ordering::Less));
    assert!(rt; order(MOST, (1, 2)).is_none());
}
