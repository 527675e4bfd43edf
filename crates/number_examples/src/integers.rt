//! Worked rows: whole numbers of 384 bits, their products and quotients.

use exact384::{Divisor, Integer, Natural, is_less_product, is_sum_above, sum_of_products};

// The greatest number of 127 bits.
const MOST: i128 = i128::MAX;

// The high digit of 2^383.
const TOP: u128 = 1 << 127;

// All bits of a digit.
const ALL: u128 = u128::MAX;

/// A number of the given digits, the high one first.
fn whole(negative: bool, high: u128, middle: u128, low: u128) -> Integer {
    Integer {
        negative,
        magnitude: Natural { low, middle, high },
    }
}

/// Whether two numbers have the same sign and the same digits, or both are none.
fn are_same(x: Option<Integer>, want: Option<Integer>) -> bool {
    match (x, want) {
        (Some(x), Some(want)) => x.negative == want.negative && x.magnitude == want.magnitude,
        (None, None) => true,
        _ => false,
    }
}

#[test]
fn edges(rt: HostRuntime) {
    for (x, want) in [
        (Integer::new(-MOST), Some(-MOST)),
        (Integer::new(i128::MIN), None),
        (whole(false, 0, 1, 0), None),
    ] {
        assert!(rt; x.narrowed() == want);
    }
    let zero = whole(true, 0, 0, 0);
    assert!(rt;
        !zero.is_negative() && !Integer::ZERO.is_less(zero),
        "a 0 of either sign"
    );
    assert!(rt; Integer::ONE.negated().is_less(Integer::ZERO));
}

/// Whether the sum of products is this number, by its sign and digits.
fn is_sum(xs: &[Integer], ys: &[i128], want: Option<Integer>) -> bool {
    xs.len() == ys.len() && are_same(sum_of_products(xs, ys), want)
}

#[test]
fn sums_of_products(rt: HostRuntime) {
    let big = whole(false, TOP, 0, 0);
    assert!(rt;
        is_sum(
            &[Integer::new(MOST)],
            &[-MOST],
            Some(whole(true, 0, ALL >> 2, 1))
        )
    );
    assert!(rt;
        is_sum(
            &[big, Integer::ONE, big],
            &[4, 7, -4],
            Some(whole(false, 0, 0, 7))
        ),
        "only the finished sum counts"
    );
    assert!(rt; is_sum(&[big], &[2], None));
}

/// Whether a sum of two products is above a product, as wanted.
fn is_above(xs: &[Integer], ys: &[i128], x: Integer, y: i128, want: bool) -> bool {
    xs.len() == ys.len() && is_sum_above(xs, ys, x, y) == want
}

#[test]
fn sums_above_products(rt: HostRuntime) {
    let big = whole(false, TOP, 0, 0);
    for (xs, ys, x, y, want) in [
        ([big, Integer::ONE], [4, 0], big, 4, false),
        ([big, Integer::ONE], [4, 1], big, 4, true),
        ([big, big], [MOST, MOST], big, MOST, true),
        ([big, big], [-MOST, -MOST], big, -MOST, false),
        (
            [Integer::ZERO, whole(true, 0, 0, 0)],
            [MOST, -1],
            Integer::ONE,
            -1,
            true,
        ),
    ] {
        assert!(rt; is_above(&xs, &ys, x, y, want), "{ys:?}");
    }
}

#[test]
fn order_of_products(rt: HostRuntime) {
    for (a, b, c, d, want) in [
        (
            whole(false, TOP, 0, 0),
            3,
            whole(false, TOP / 2, 0, 0),
            6,
            false,
        ),
        (
            whole(false, TOP, 0, 0),
            3,
            whole(false, TOP / 2, 0, 1),
            6,
            true,
        ),
        (
            whole(true, ALL, ALL, ALL),
            MOST,
            whole(false, 0, 0, 1),
            1,
            true,
        ),
        (whole(true, 0, 0, 0), 1, whole(false, 0, 1, 0), 0, false),
    ] {
        assert!(rt; is_less_product(a, b, c, d) == want);
    }
}

/// Each row gives the quotient of `x * p - y * q` by a number.
#[test]
fn quotients(rt: HostRuntime) {
    let zero = Integer::ZERO;
    let all = whole(false, ALL, ALL, ALL);
    for (x, p, y, q, by, want) in [
        (
            Integer::new(MOST),
            Integer::new(-MOST),
            zero,
            zero,
            Integer::new(MOST),
            Some(whole(true, 0, 0, ALL >> 1)),
        ),
        // -5^60 times 3^50 * 2^130, by the latter.
        (
            whole(true, 0, 0x9f4, 0xf272_6179_a224_501d_7624_22c9_4659_0d91),
            whole(false, 0, 0x2_6015_4fc3_6cbf_4277_8f24, 0),
            zero,
            zero,
            whole(false, 0, 0x2_6015_4fc3_6cbf_4277_8f24, 0),
            Some(whole(true, 0, 0x9f4, 0xf272_6179_a224_501d_7624_22c9_4659_0d91)),
        ),
        // A determinant of three rows, by its minors.
        (
            whole(false, 0, 0x20, 0xa712_2893_bd6a_b56a_417d_a5a6_2dd4_0a0f),
            whole(false, 0, 0x1d, 0x6329_f1c3_5ca4_c08d_c855_6b64_a2e7_ffdc),
            whole(true, 0, 0, 0x1d_1ce2_d389_b0ad_2139),
            whole(false, 0, 0x2, 0xf050_fe93_8943_adfa_ff1e_b7a8_ac47_ffac),
            whole(false, 0, 0, 0x5_6bc7_5e2d_6310_0027),
            Some(whole(
                false,
                0,
                0xb1_029d_4418_a9d7_3b9a,
                0xcdfd_357b_4d28_5a35_697e_4823_5276_2550,
            )),
        ),
        // Products of 767 bits, of which little is left.
        (
            whole(false, TOP, 0, 0),
            whole(false, TOP, 0, 0),
            whole(false, TOP, 0, 0),
            whole(false, TOP - 1, ALL, ALL),
            whole(false, TOP / 2, 0, 0),
            Some(whole(false, 0, 0, 2)),
        ),
        // 15 by 2, 2^384 by 1, and a difference of 769 bits.
        (
            Integer::new(3),
            Integer::new(5),
            zero,
            zero,
            Integer::new(2),
            None,
        ),
        (
            whole(false, TOP, 0, 0),
            Integer::new(2),
            zero,
            zero,
            Integer::ONE,
            None,
        ),
        (all, all, all.negated(), all, all, None),
    ] {
        let found = match Divisor::new(by) {
            Some(divisor) => divisor.crossed_quotient(x, p, y, q),
            None => None,
        };
        assert!(rt; are_same(found, want));
    }
    assert!(rt; Divisor::new(zero).is_none());
}
