//! The sums of the values at the points of a refutation.

ghost use Rattle.std.specs.Prelude.{◌≡◌, ◌↔◌, ◌≤ℤ◌, IfOk, IfSome, IsTrue, None, [], length, map, pos, true, ℕ};
ghost use Rattle.std.specs.List.{AllByRecursion};
ghost use Rattle.call_components.specs.Numbers.{number_of};
ghost use Rattle.number_tests.specs.Failing.{SumsFail};
ghost use Rattle.number_tests.specs.PairSums.{AddsBoth, AddsLoad};
ghost use Rattle.number_tests.specs.Refuting.{PairsFit, SumsRefute, call_loads, call_of, clause_of, head_loads, sizes_at};
ghost use Rattle.number_tests.specs.Shape.{IsPairOf};
ghost use Rattle.number_tests.specs.Sums.{sum_at};
ghost use Rattle.number_tests.specs.declared.pair_point.PairPoint.{PairPoint};
ghost use Rattle.linear_rows.specs.Plain.{HaveWidth, plain_rows};
ghost use Rattle.termination_model.specs.claims.Claims.{SomeOf};
ghost use Rattle.termination_model.specs.mappings.Refutation.{gather};
ghost use Rattle.termination_model.specs.sizes.Sizes.{AreSizes};

use crate::flaw::Flaw;
use crate::member_sums::{add_values, are_lighter};
use crate::pair_point::PairPoint;
use crate::point_values::values_at;
use crate::reaching::{nothing_reached, reach};
use cti_terms::{PredId, Program};
use linear_rows::{Numbers, Point, Rows};
use std::alloc::{AllocError, Global};
use std::collections::BTreeMap;
use term_size::Norm;
use termination_model::{SizeRows, add_expressions};

/// Adds the values of expressions at a point to the sums of a predicate, and says whether all numbers fit.
fn add_load(
    alloc: Global,
    sizes: &Rows,
    point: &Point,
    pred: u32,
    sums: &mut BTreeMap<u32, Numbers>,
) -> Result<bool, AllocError>
    requires { HaveWidth (length point.now.w) sizes.now.list }
    ensures { IfOk result (AddsLoad sums.old sums.new pred (plain_rows sizes.now.list) point.now) }
{
    let Some(values) = values_at(alloc, sizes, point)? else {
        return Ok(false);
    };
    add_values(alloc, sums, pred, &values)
}

/// Adds the values of a pair's head and call at its point to the sums, and says whether all numbers fit.
fn add_pair<N: Norm>(
    alloc: Global,
    p: &Program,
    norm: &N,
    head: &Rows,
    x: &PairPoint,
    heads: &mut BTreeMap<u32, Numbers>,
    calls: &mut BTreeMap<u32, Numbers>,
) -> Result<bool, AllocError>
    requires pair { IsPairOf p.now x.now }
    requires width { HaveWidth (length x.now.point.w) head.now.list }
    requires head { plain_rows head.now.list ≡ sizes_at (N.expression norm.now)
        (clause_of p.now x.now).head x.now.point }
    ensures { IfOk result (AddsBoth
        (AddsLoad heads.old heads.new (clause_of p.now x.now).head.pred.0
        (sizes_at (N.expression norm.now)
        (clause_of p.now x.now).head x.now.point) x.now.point)
        (AddsLoad calls.old calls.new (call_of p.now x.now).pred.0
        (sizes_at (N.expression norm.now) (call_of p.now x.now) x.now.point) x.now.point)) }
{
    let clause = p.clause(x.clause);
    if !add_load(alloc, head, &x.point, clause.head.pred.0, heads)? {
        return Ok(false);
    }
    let call = &clause.body.as_slice()[x.call as usize - 1];
    let mut sizes = Rows::new(alloc, clause.vars);
    add_expressions(alloc, norm, &call.args, &mut sizes)?;
    add_load(alloc, &sizes, &x.point, call.pred.0, calls)
}

/// Adds the values of all pairs' heads and calls to sums that are empty, and says whether all numbers fit.
fn sum_pairs<N: Norm>(
    alloc: Global,
    p: &Program,
    norm: &N,
    sizes: &SizeRows,
    points: &[PairPoint],
    heads: &mut BTreeMap<u32, Numbers>,
    calls: &mut BTreeMap<u32, Numbers>,
) -> Result<bool, AllocError>
    requires sizes { AreSizes p.now.preds sizes.now }
    requires pairs { AllByRecursion (IsPairOf p.now) points.now }
    requires no_heads { (q : ℕ) → sum_at heads.old q ≡ [] }
    requires no_calls { (q : ℕ) → sum_at calls.old q ≡ [] }
    ensures fit { IfOk result
        (λ fits. IsTrue fits ↔ PairsFit (N.expression norm.now) p.now points.now) }
    ensures heads { IfOk result (λ fits. fits ≡ true → (q : ℕ)
        → sum_at heads.new q ≡ gather q (head_loads (N.expression norm.now) p.now points.now)) }
    ensures calls { IfOk result (λ fits. fits ≡ true → (q : ℕ)
        → sum_at calls.new q ≡ gather q (call_loads (N.expression norm.now) p.now points.now)) }
{
    let mut reached = nothing_reached(alloc);
    for x in points {
        reached = reach(alloc, p, norm, sizes, reached, x.clause, 0)?;
        if !add_pair(alloc, p, norm, &reached.system.head, x, heads, calls)? {
            return Ok(false);
        }
    }
    Ok(true)
}

/// Whether some point has a positive t.
fn has_positive(points: &[PairPoint]) -> bool
    ensures { IsTrue result ↔ SomeOf (λ (x : PairPoint). pos 1 ≤ℤ x.point.t) points.now }
{
    for x in points {
        if x.point.t > 0 {
            return true;
        }
    }
    false
}

/// Why the sums of a refutation refute nothing, if they do not.
pub fn sums_flaw<N: Norm>(
    alloc: Global,
    p: &Program,
    norm: &N,
    sizes: &SizeRows,
    members: &[PredId],
    points: &[PairPoint],
) -> Result<Option<Flaw>, AllocError>
    requires sizes { AreSizes p.now.preds sizes.now }
    requires pairs { AllByRecursion (IsPairOf p.now) points.now }
    ensures refute { IfOk result
        (λ flaw. (flaw ≡ None) ↔ SumsRefute (N.expression norm.now) p.now
        (map number_of members.now) points.now) }
    ensures fails { IfOk result
        (λ flaw. IfSome flaw (SumsFail (N.expression norm.now) p.now
        (map number_of members.now) points.now)) }
{
    let mut heads = BTreeMap::new(alloc);
    let mut calls = BTreeMap::new(alloc);
    if !sum_pairs(alloc, p, norm, sizes, points, &mut heads, &mut calls)? {
        return Ok(Some(Flaw::Wide));
    }
    if !has_positive(points) || !are_lighter(alloc, members, &heads, &calls) {
        return Ok(Some(Flaw::Fails));
    }
    Ok(None)
}
