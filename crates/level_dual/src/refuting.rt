//! Refutations of a component, tested as a certificate's check tests them.

ghost use Rattle.std.specs.Prelude.{◌≡◌, ◌↔◌, ◌+◌, ◌∷◌, ℕ, ℤ, List, IfOk, IfSome, IsTrue, None, false, length, map, pos, true};
ghost use Rattle.std.specs.List.{AllByRecursion};
ghost use Rattle.call_components.specs.Numbers.{number_of};
ghost use Rattle.call_components.specs.Partition.{IsIn, Partition};
ghost use Rattle.cti_terms.specs.Tree.{Tree};
ghost use Rattle.level_dual.specs.Accepted.{AreAccepted};
ghost use Rattle.level_systems.specs.Found.{IsNaturalPoint, IsRefutationOf, PairsAscend};
ghost use Rattle.level_systems.specs.Held.{IsHeld, live_of};
ghost use Rattle.level_systems.specs.Recalled.{Recalls};
ghost use Rattle.level_systems.specs.Refuted.{ArePointsIf, HasPoints, HasWidths, IsAdded, IsInFit, IsNought, IsOfCalls, IsPointAt, IsSpelledIf, RefuteIf, solution_of};
ghost use Rattle.level_systems.specs.Searched.{IsComponent, IsSound};
ghost use Rattle.linear_rows.specs.Members.{In};
ghost use Rattle.linear_rows.specs.Plain.{HaveWidth};
ghost use Rattle.linear_rows.specs.Step.{columns};
ghost use Rattle.level_systems.specs.declared.own_call.OwnCall.{OwnCall};
ghost use Rattle.number_tests.specs.Shape.{IsBefore, IsPairOf, place_of_pair};
ghost use Rattle.termination_model.specs.mappings.BlownSupports.{IsBlownAt};
ghost use Rattle.termination_model.specs.mappings.OwnCalls.{OwnCall as Recalled};
ghost use Rattle.termination_model.specs.mappings.Ready.{arity_in};
ghost use Rattle.termination_model.specs.sizes.Sizes.{AreSizes, rows_of};
ghost use Rattle.termination_model.specs.mappings.Supports.{picked_from};
ghost use Rattle.termination_model.specs.mappings.ComponentViews.{HasSupportIn, component_view, members_in, positions_in};

use cti_terms::{PredId, Program};
use fourier::ElimFault;
use level_systems::{Component, OwnCall, point_of, solve_by, support_system};
use linear_rows::{Numbers, Point, Solved, are_natural};
use number_tests::{PairPoint, Refutation, points_flaw, sums_flaw};
use sequences::Sequence;
use std::alloc::{AllocError, Global};
use term_size::Norm;
use termination_model::Sizes;

/// Whether all numbers are 0.
fn are_zero(numbers: &[i128]) -> bool
    ensures { result ≡ true → IsNought numbers.now }
{
    for number in numbers {
        if *number != 0 {
            return false;
        }
    }
    true
}

/// Whether a number is 0.
pub(crate) fn is_nought(x: i128) -> bool
    ensures { IsTrue result ↔ (x ≡ pos 0) }
{
    x == 0
}

/// The point of a call that multipliers spell: its t first. Where that is 0, a second point is given.
fn pair_point(
    alloc: Global,
    own: &OwnCall,
    t: i128,
    values: &[i128],
    by_pivots: bool,
) -> Result<Option<PairPoint>, AllocError>
    requires widths { HaveWidth own.now.rows.width own.now.rows.list }
    requires values { length values.now ≡ own.now.rows.width }
    ensures at { IfOk result (λ o. IfSome o (IsPointAt own.now)) }
    ensures exact { by_pivots ≡ false → IfOk result (IsSpelledIf own.now (t ∷ values.now)) }
{
    let at = if is_nought(t) {
        let Some(second) = point_of(alloc, &own.rows, by_pivots)? else {
            return Ok(None);
        };
        Some(second)
    } else {
        None
    };
    let w = Numbers::from_vec(Vec::from_slice(alloc, values)?);
    Ok(Some(PairPoint {
        clause: own.clause,
        call: own.call,
        point: Point { t, w },
        at,
    }))
}

/// Adds the point of a call, unless all its numbers are 0, and says whether that was possible.
fn add_point(
    alloc: Global,
    own: &OwnCall,
    numbers: &[i128],
    by_pivots: bool,
    points: &mut Sequence<PairPoint>,
) -> Result<bool, AllocError>
    requires widths { HaveWidth own.now.rows.width own.now.rows.list }
    requires numbers { length numbers.now ≡ own.now.rows.width + 1 }
    ensures mine { IfOk result (λ done. (owns : List OwnCall) → In own.now owns
        → AllByRecursion (IsOfCalls owns) points.old
        → AllByRecursion (IsOfCalls owns) points.new) }
    ensures exact { by_pivots ≡ false
        → IfOk result (IsAdded own.now numbers.now points.old points.new) }
{
    if are_zero(numbers) {
        return Ok(true);
    }
    let Some(point) = pair_point(alloc, own, numbers[0], &numbers[1..], by_pivots)? else {
        return Ok(false);
    };
    points.push(point)?;
    Ok(true)
}

/// The points of calls that multipliers of a system's rows spell, in their order.
fn points_of(
    alloc: Global,
    calls: &[OwnCall],
    numbers: &[i128],
    by_pivots: bool,
) -> Result<Option<Sequence<PairPoint>>, AllocError>
    requires { AllByRecursion HasWidths calls.now }
    ensures mine { IfOk result (λ o. IfSome o (AllByRecursion (IsOfCalls calls.now))) }
    ensures exact { by_pivots ≡ false → IfOk result (ArePointsIf (live_of calls.now) numbers.now) }
{
    let mut points = Sequence::new(alloc);
    let mut numbers = numbers;
    for own in calls {
        if own.empty.is_some() {
            continue;
        }
        let many = own.rows.width as usize + 1;
        if numbers.len() < many {
            return Ok(None);
        }
        if !add_point(alloc, own, &numbers[..many], by_pivots, &mut points)? {
            return Ok(None);
        }
        numbers = &numbers[many..];
    }
    Ok(Some(points))
}

/// The points of the multipliers that refute the system of all positions, if they do.
fn refuting_points(
    alloc: Global,
    p: &Program,
    component: &Component,
    by_pivots: bool,
) -> Result<Option<Sequence<PairPoint>>, AllocError>
    requires { IsSound p.now component.now }
    ensures mine { IfOk result
        (λ o. IfSome o (AllByRecursion (IsOfCalls component.now.calls.items))) }
    ensures exact { by_pivots ≡ false
        → IfOk result (λ o. (expression : ℕ → Tree → List ℤ) (re : OwnCall → Recalled)
        → AllByRecursion (λ own. Recalls expression (re own) own) component.now.calls.items
        → RefuteIf (live_of component.now.calls.items)
        (solution_of expression component.now (map re (live_of component.now.calls.items))) o) }
{
    let calls = component.calls.as_slice();
    let system = support_system(
        alloc,
        calls,
        component.order.as_slice(),
        component.by_clauses.as_slice(),
    )?;
    match solve_by(alloc, &system, by_pivots) {
        Ok(Solved::Refuted(by)) => points_of(alloc, calls, by.list.as_slice(), by_pivots),
        Ok(Solved::Point(_)) => Ok(None),
        Err(ElimFault::Blown { .. }) => Ok(None),
        Err(ElimFault::Memory) => Err(AllocError),
    }
}

/// Whether all numbers of a point are at least 0.
fn is_natural(point: &Point) -> bool
    ensures { IsTrue result ↔ IsNaturalPoint point.now }
{
    if point.t < 0 {
        return false;
    }
    are_natural(point.w.as_slice())
}

/// Whether a pair's points are natural, and there is a second one exactly where the first stands for a direction.
fn has_points(x: &PairPoint) -> bool
    ensures { IsTrue result ↔ HasPoints x.now }
{
    if !is_natural(&x.point) {
        return false;
    }
    let Some(second) = &x.at else {
        return !is_nought(x.point.t);
    };
    if !is_nought(x.point.t) {
        return false;
    }
    if !is_natural(second) {
        return false;
    }
    !is_nought(second.t)
}

/// Whether a pair is after the one of a clause and a call.
fn is_after(clause: u32, call: u32, x: &PairPoint) -> bool
    ensures { IsTrue result ↔ IsBefore (clause, call) (place_of_pair x.now) }
{
    if clause < x.clause {
        return true;
    }
    if clause != x.clause {
        return false;
    }
    call < x.call
}

/// Whether pairs ascend, each with the points that it needs.
fn are_formed(points: &[PairPoint]) -> bool
    ensures { IsTrue result ↔ (PairsAscend (0, 0) points.now
        × AllByRecursion HasPoints points.now) }
{
    let mut clause = 0;
    let mut call = 0;
    for x in points {
        if !is_after(clause, call, x) {
            return false;
        }
        if !has_points(x) {
            return false;
        }
        clause = x.clause;
        call = x.call;
    }
    true
}

/// The refutation with these points, if the check of a certificate accepts them.
pub fn accepted<N: Norm>(
    alloc: Global,
    p: &Program,
    norm: &N,
    sizes: &Sizes,
    members: &[PredId],
    points: Sequence<PairPoint>,
) -> Result<Option<Refutation>, AllocError>
    requires sizes { AreSizes p.now.preds sizes.now.rows }
    requires pairs { AllByRecursion (IsPairOf p.now) points }
    ensures some { IfOk result (λ o. IfSome o (λ r. (r.points ≡ points)
        × AreAccepted (N.expression norm.now) p.now (rows_of sizes.now.rows)
        (map number_of members.now) points)) }
    ensures none { IfOk result (λ o. o ≡ None
        → AreAccepted (N.expression norm.now) p.now (rows_of sizes.now.rows)
        (map number_of members.now) points → ⊥) }
{
    if !are_formed(points.as_slice()) {
        return Ok(None);
    }
    if sums_flaw(alloc, p, norm, &sizes.rows, members, points.as_slice())?.is_some() {
        return Ok(None);
    }
    if points_flaw(alloc, p, norm, &sizes.rows, points.as_slice())?.is_some() {
        return Ok(None);
    }
    Ok(Some(Refutation { points }))
}

/// The refutation of a component by one way of solving.
fn refutation_by<N: Norm>(
    alloc: Global,
    p: &Program,
    norm: &N,
    sizes: &Sizes,
    component: &Component,
    by_pivots: bool,
) -> Result<Option<Refutation>, AllocError>
    requires sound { IsSound p.now component.now }
    requires sizes { AreSizes p.now.preds sizes.now.rows }
    requires held { AllByRecursion
        (IsHeld (N.expression norm.now) p.now (rows_of sizes.now.rows)) component.now.calls.items }
    ensures refutes { IfOk result (λ o. (comps : Partition) (c : ℕ)
        → map number_of component.now.members.items ≡ members_in comps c
        → AllByRecursion (λ (own : OwnCall). IsIn comps c own.caller.0) component.now.calls.items
        → AllByRecursion (λ (own : OwnCall). IsIn comps c own.callee.0) component.now.calls.items
        → IfSome o (IsRefutationOf (N.expression norm.now) p.now comps
        (rows_of sizes.now.rows) c)) }
    ensures given_up { by_pivots ≡ false
        → IfOk result (λ o. o ≡ None → (comps : Partition) (c : ℕ)
        → IsComponent (N.size norm.now) (N.truth norm.now) (N.expression norm.now) p.now comps
        (rows_of sizes.now.rows) c component.now
        → IsInFit (N.expression norm.now) p.now comps (rows_of sizes.now.rows) c component.now
        → ⊥) }
{
    let Some(points) = refuting_points(alloc, p, component, by_pivots)? else {
        return Ok(None);
    };
    accepted(alloc, p, norm, sizes, component.members.as_slice(), points)
}

/// The refutation of a component, where the system of all positions is refuted in numbers that the check of a
/// certificate accepts.
///
/// The system is solved by pivots first. Where the check does not accept their numbers, elimination solves it again.
pub(crate) fn refutation<N: Norm>(
    alloc: Global,
    p: &Program,
    norm: &N,
    sizes: &Sizes,
    component: &Component,
) -> Result<Option<Refutation>, AllocError>
    requires sound { IsSound p.now component.now }
    requires sizes { AreSizes p.now.preds sizes.now.rows }
    requires held { AllByRecursion
        (IsHeld (N.expression norm.now) p.now (rows_of sizes.now.rows)) component.now.calls.items }
    ensures refutes { IfOk result (λ o. (comps : Partition) (c : ℕ)
        → map number_of component.now.members.items ≡ members_in comps c
        → AllByRecursion (λ (own : OwnCall). IsIn comps c own.caller.0) component.now.calls.items
        → AllByRecursion (λ (own : OwnCall). IsIn comps c own.callee.0) component.now.calls.items
        → IfSome o (IsRefutationOf (N.expression norm.now) p.now comps
        (rows_of sizes.now.rows) c)) }
    ensures given_up { IfOk result (λ o. o ≡ None → (comps : Partition) (c : ℕ)
        → IsComponent (N.size norm.now) (N.truth norm.now) (N.expression norm.now) p.now comps
        (rows_of sizes.now.rows) c component.now
        → ((s : List ℕ) → HasSupportIn (N.expression norm.now) p.now comps
        (rows_of sizes.now.rows) c s → ⊥)
        → IsBlownAt (N.expression norm.now)
        (component_view (N.expression norm.now) p.now comps (rows_of sizes.now.rows) c)
        (arity_in p.now)
        (picked_from 1 (positions_in p.now comps c)
        (columns 1 (length component.now.positions.items)))) }
{
    if let Some(refutation) = refutation_by(alloc, p, norm, sizes, component, true)? {
        return Ok(Some(refutation));
    }
    refutation_by(alloc, p, norm, sizes, component, false)
}
