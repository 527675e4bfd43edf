//! Numbers in the range of their type.

ghost use Rattle.std.specs.Prelude.{IfSome};
ghost use Rattle.std.specs.List.{AllByRecursion};
ghost use Rattle.cert_assembly.specs.Ranges.{AreBelow, AreMultipliersBelow, IsBelow, IsPairBelow, IsPartBelow, IsPointBelow, IsRefutationBelow};
ghost use Rattle.cert_assembly.specs.Ranges.{IsFallBelow, IsFoundBelow, IsMappingBelow, IsMeasureBelow};

use level_systems::{Fall, Found, Mapping, Measure};
use linear_rows::{Multipliers, Point};
use number_tests::{LevelPart, PairPoint, Refutation};
use sequences::Sequence;

/// What has numbers of 128 bits. They are all below 2^127.
pub trait Bounded {
    /// All numbers are below 2^127.
    ghost is_below: { Self → Type 0 };

    /// Says that the numbers are below 2^127.
    fn bounded(&self)
        ensures { is_below self.now };
}

/// Says that a number is below 2^127.
fn is_bounded(_number: i128)
    ensures { IsBelow _number }
{}

/// Says that numbers are below 2^127.
fn are_bounded(numbers: &[i128])
    ensures { AreBelow numbers.now }
{
    for number in numbers {
        is_bounded(*number);
    }
}

/// Says that all numbers of items are below 2^127.
pub fn all_bounded<T: Bounded>(items: &[T])
    ensures { AllByRecursion T.is_below items.now }
{
    for item in items {
        item.bounded();
    }
}

impl Bounded for Multipliers {
    ghost is_below = { AreMultipliersBelow };

    fn bounded(&self) {
        let _scale = self.scale;
        are_bounded(self.list.as_slice());
    }
}

impl Bounded for LevelPart {
    ghost is_below = { IsPartBelow };

    fn bounded(&self) {
        let _offset = self.offset;
        are_bounded(self.coeffs.as_slice());
    }
}

impl Bounded for Point {
    ghost is_below = { IsPointBelow };

    fn bounded(&self) {
        let _t = self.t;
        are_bounded(self.w.as_slice());
    }
}

impl<T: Bounded> Bounded for Option<T> {
    ghost is_below = { λ o. IfSome o T.is_below };

    fn bounded(&self) {
        if let Some(item) = self {
            item.bounded();
        }
    }
}

impl Bounded for PairPoint {
    ghost is_below = { IsPairBelow };

    fn bounded(&self) {
        self.point.bounded();
        self.at.bounded();
    }
}

impl Bounded for Refutation {
    ghost is_below = { IsRefutationBelow };

    fn bounded(&self) {
        all_bounded(self.points.as_slice());
    }
}

impl Bounded for Measure {
    ghost is_below = { IsMeasureBelow };

    fn bounded(&self) {
        self.part.bounded();
    }
}

impl Bounded for Fall {
    ghost is_below = { IsFallBelow };

    fn bounded(&self) {
        self.by.bounded();
    }
}

impl Bounded for Mapping {
    ghost is_below = { IsMappingBelow };

    fn bounded(&self) {
        self.measures.bounded();
        self.falls.bounded();
    }
}

impl Bounded for Found {
    ghost is_below = { IsFoundBelow };

    fn bounded(&self) {
        self.mappings.bounded();
        self.refutation.bounded();
    }
}

impl<T: Bounded> Bounded for Sequence<T> {
    ghost is_below = { AllByRecursion T.is_below };

    fn bounded(&self) {
        all_bounded(self.as_slice());
    }
}
