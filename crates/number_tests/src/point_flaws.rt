//! Rows at the points of a refutation.

ghost use Rattle.std.specs.Prelude.{◌≡◌, ◌↔◌, IfOk, IfSome, None, length};
ghost use Rattle.std.specs.List.{AllByRecursion};
ghost use Rattle.number_tests.specs.Failing.{IsFirstOfPair, IsFirstPoint, points_of};
ghost use Rattle.number_tests.specs.Refuting.{PointHolds};
ghost use Rattle.number_tests.specs.Shape.{IsPairOf};
ghost use Rattle.number_tests.specs.SystemPoints.{SystemFails, SystemHolds};
ghost use Rattle.linear_rows.specs.Plain.{HaveWidth};
ghost use Rattle.termination_model.specs.sizes.Sizes.{AreSizes, rows_of};

use crate::flaw::Flaw;
use crate::pair_point::PairPoint;
use crate::point_flaw::PointFlaw;
use crate::point_values::value_at;
use crate::reaching::{nothing_reached, reach};
use cti_terms::Program;
use linear_rows::{Point, System};
use std::alloc::{AllocError, Global};
use term_size::Norm;
use termination_model::SizeRows;

/// Why some row of a system does not hold at a point, if one does not.
fn rows_flaw(system: &System, point: &Point) -> Option<Flaw>
    requires { HaveWidth (length point.now.w) system.now.rows.list }
    ensures holds { (result ≡ None) ↔ SystemHolds system.now point.now }
    ensures fails { IfSome result (SystemFails system.now point.now) }
{
    if system.wide {
        return Some(Flaw::Wide);
    }
    let mut below = None;
    for row in system.rows.list.as_slice() {
        let Some(value) = value_at(row, point) else {
            return Some(Flaw::Wide);
        };
        if value < 0 {
            below = Some(Flaw::Fails);
        }
    }
    below
}

/// The first point of a pair at which some row of the system does not hold. The first point has this place.
fn pair_flaw(system: &System, x: &PairPoint, place: u64) -> Option<PointFlaw>
    requires point { HaveWidth (length x.now.point.w) system.now.rows.list }
    requires at { IfSome x.now.at (λ y. HaveWidth (length y.w) system.now.rows.list) }
    ensures holds { (result ≡ None)
        ↔ (SystemHolds system.now x.now.point × IfSome x.now.at (SystemHolds system.now)) }
    ensures first { IfSome result
        (IsFirstOfPair (SystemHolds system.now) (SystemFails system.now) x.now place) }
{
    if let Some(flaw) = rows_flaw(system, &x.point) {
        return Some(PointFlaw { place, flaw });
    }
    let Some(second) = &x.at else {
        return None;
    };
    let flaw = rows_flaw(system, second)?;
    Some(PointFlaw {
        place: place.saturating_add(1),
        flaw,
    })
}

/// How many points a pair has.
pub fn points_of(x: &PairPoint) -> u64
    ensures { result ≡ points_of x.now }
{
    match x.at {
        None => 1,
        Some(_) => 2,
    }
}

/// The first point at which some row of the atoms before its call does not hold.
pub fn points_flaw<N: Norm>(
    alloc: Global,
    p: &Program,
    norm: &N,
    sizes: &SizeRows,
    points: &[PairPoint],
) -> Result<Option<PointFlaw>, AllocError>
    requires sizes { AreSizes p.now.preds sizes.now }
    requires pairs { AllByRecursion (IsPairOf p.now) points.now }
    ensures hold { IfOk result
        (λ flaw. (flaw ≡ None) ↔ AllByRecursion
        (PointHolds (N.expression norm.now) p.now (rows_of sizes.now)) points.now) }
    ensures first { IfOk result
        (λ flaw. IfSome flaw (IsFirstPoint (N.expression norm.now) p.now
        (rows_of sizes.now) points.now)) }
{
    let mut place = 0;
    let mut reached = nothing_reached(alloc);
    for x in points {
        let before = x.call as usize - 1;
        reached = reach(alloc, p, norm, sizes, reached, x.clause, before)?;
        if let Some(flaw) = pair_flaw(&reached.system, x, place) {
            return Ok(Some(flaw));
        }
        place = place.saturating_add(points_of(x));
    }
    Ok(None)
}
