//! Sums of values for each predicate.

ghost use Rattle.std.specs.Prelude.{◌≡◌, ◌↔◌, ◌≤ℤ◌, ℕ, Contains, IfOk, IsTrue, SomeIff, [], map, true};
ghost use Rattle.call_components.specs.Numbers.{number_of};
ghost use Rattle.number_tests.specs.Sums.{AddsTo, sum_at};
ghost use Rattle.exact128.specs.Sums.{entry};
ghost use Rattle.termination_model.specs.sizes.Rows.{added};
ghost use Rattle.termination_model.specs.sizes.Systems.{row_fits};

use cti_terms::PredId;
use exact128::plus;
use linear_rows::Numbers;
use std::alloc::{AllocError, Global};
use std::collections::BTreeMap;

/// The sums of a predicate, or none.
fn sums_of<'a>(sums: &'a BTreeMap<u32, Numbers>, pred: u32, none: &'a Numbers) -> &'a Numbers
    requires { none.now ≡ [] }
    ensures { result.now ≡ sum_at sums.now pred }
{
    match sums.get(&pred) {
        Some(own) => own,
        None => none,
    }
}

/// The sum of two lists, place by place, where each of its numbers fits.
fn sum_numbers(alloc: Global, xs: &Numbers, ys: &Numbers) -> Result<Option<Numbers>, AllocError>
    ensures { IfOk result (λ sum. SomeIff sum (row_fits (added xs.now ys.now) ≡ true)
        (added xs.now ys.now)) }
{
    let mut sums = Numbers::new(alloc);
    for i in 0..xs.len().max(ys.len()) {
        let Some(sum) = plus(xs.entry(i), ys.entry(i)) else {
            return Ok(None);
        };
        sums.push(sum)?;
    }
    Ok(Some(sums))
}

/// Whether each number is at most that of the other list at its place.
fn are_at_most(xs: &Numbers, ys: &Numbers) -> bool
    ensures { IsTrue result ↔ ((i : ℕ) → entry xs.now i ≤ℤ entry ys.now i) }
{
    for i in 0..xs.len().max(ys.len()) {
        if xs.entry(i) > ys.entry(i) {
            return false;
        }
    }
    true
}

/// Adds values to the sums of a predicate, where the sums fit, and says whether they do.
pub(crate) fn add_values(
    alloc: Global,
    sums: &mut BTreeMap<u32, Numbers>,
    pred: u32,
    values: &Numbers,
) -> Result<bool, AllocError>
    ensures { IfOk result (AddsTo sums.old sums.new pred values.now) }
{
    let none = Numbers::new(alloc);
    let Some(next) = sum_numbers(alloc, sums_of(sums, pred, &none), values)? else {
        return Ok(false);
    };
    sums.insert(pred, next)?;
    Ok(true)
}

/// Whether for each member the first sums are at most the second ones.
pub(crate) fn are_lighter(
    alloc: Global,
    members: &[PredId],
    heads: &BTreeMap<u32, Numbers>,
    calls: &BTreeMap<u32, Numbers>,
) -> bool
    ensures { IsTrue result ↔ ((q : ℕ) → Contains (map number_of members.now) q → (i : ℕ)
        → entry (sum_at heads.now q) i ≤ℤ entry (sum_at calls.now q) i) }
{
    let none = Numbers::new(alloc);
    for member in members {
        let head = sums_of(heads, member.0, &none);
        if !are_at_most(head, sums_of(calls, member.0, &none)) {
            return false;
        }
    }
    true
}
