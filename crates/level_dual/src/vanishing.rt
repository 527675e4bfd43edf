//! Coefficients that are 0 in each decreasing mapping where others are 0.
//!
//! Along a ray the variables of a call grow for ever while the size rows before it hold, so there the head's level
//! grows at least as fast as the call's. So along a ray on which no positive coefficient of the head grows, none of the
//! call's does either. Marks say at which positions the coefficient is 0.

ghost use Rattle.std.specs.Prelude.{◌≡◌, ◌<◌, ◌≤ℤ◌, ◌^◌, ◌∷◌, ℕ, pos, IfOk, IfSome, None, Some, length, slice_get, true};
ghost use Rattle.std.specs.List.{AllByRecursion};
ghost use Rattle.exact128.specs.Sums.{dot, entry};
ghost use Rattle.linear_rows.specs.Plain.{plain_row};
ghost use Rattle.level_systems.specs.Recalled.{HasNumbers};
ghost use Rattle.level_dual.specs.Vanishing.{AreMarkedOrIn, AreUnlisted, IsMarkedAt, IsRay, IsSilent, KeepsRays, Vanishes, growths};
ghost use Rattle.termination_model.specs.mappings.Coefficients.{coefficient};
ghost use Rattle.termination_model.specs.claims.Claims.{Mapping};

use crate::paths::Step;
use crate::places::Places;
use crate::refuting::is_nought;
use cti_terms::PredId;
use level_systems::OwnCall;
use linear_rows::{Numbers, Row, Rows, are_natural};
use sequences::Sequence;
use std::alloc::{AllocError, Global};

/// Whether a place is marked.
pub(crate) fn has_mark(marks: &[bool], place: usize) -> bool
    ensures { result ≡ true → slice_get marks.now place ≡ Some true }
{
    place < marks.len() && marks[place]
}

/// Marks a place, if there is one.
pub(crate) fn put_mark(marks: &mut Vec<bool>, place: usize)
    ensures { IsMarkedAt marks.old.items place marks.new.items }
{
    if place < marks.len() {
        marks[place] = true;
    }
}

/// Whether an argument's position is marked.
fn is_marked(places: &Places, marks: &[bool], pred: PredId, argument: usize) -> bool
    ensures { result ≡ true → (l : Mapping) → Vanishes places.now.positions.now marks.now l
        → coefficient (l.coefficients pred.0) argument ≡ 0 }
{
    let Some(place) = places.of(pred, argument) else {
        return false;
    };
    has_mark(marks, place)
}

/// Marks an argument's position, if it is found.
fn mark(places: &Places, marks: &mut Vec<bool>, pred: PredId, argument: usize)
    ensures { (l : Mapping) → coefficient (l.coefficients pred.0) argument ≡ 0
        → Vanishes places.now.positions.now marks.old.items l
        → Vanishes places.now.positions.now marks.new.items l }
{
    let Some(place) = places.of(pred, argument) else {
        return;
    };
    put_mark(marks, place);
}

/// How fast the size of an argument grows along a ray, if this is formed in numbers that fit.
fn growth(sizes: &Rows, argument: usize, ray: &Numbers) -> Option<i128>
    requires { argument < length sizes.now.list }
    ensures { IfSome result (λ growth. growth ≡ entry (growths sizes.now ray.now) argument) }
{
    sizes.list.get(argument).value_at(0, ray.as_slice())
}

/// Whether it is seen that the size of an argument stays along a ray.
fn stays(sizes: &Rows, argument: usize, ray: &Numbers) -> bool
    requires { argument < length sizes.now.list }
    ensures { result ≡ true → entry (growths sizes.now ray.now) argument ≡ pos 0 }
{
    match growth(sizes, argument, ray) {
        Some(growth) => is_nought(growth),
        None => false,
    }
}

/// Whether it is seen that the size of an argument grows along a ray.
fn grows(sizes: &Rows, argument: usize, ray: &Numbers) -> bool
    requires { argument < length sizes.now.list }
    ensures { result ≡ true → entry (growths sizes.now ray.now) argument ≡ pos 0 → ⊥ }
{
    match growth(sizes, argument, ray) {
        Some(growth) => !is_nought(growth),
        None => false,
    }
}

/// Whether an argument stays along a ray, or its position is marked.
fn is_silent(
    sizes: &Rows,
    ray: &Numbers,
    places: &Places,
    marks: &[bool],
    pred: PredId,
    argument: usize,
) -> bool
    requires { argument < length sizes.now.list }
    ensures { result ≡ true → (l : Mapping) → Vanishes places.now.positions.now marks.now l
        → 0 < coefficient (l.coefficients pred.0) argument
        → entry (growths sizes.now ray.now) argument ≡ pos 0 }
{
    if stays(sizes, argument, ray) {
        return true;
    }
    is_marked(places, marks, pred, argument)
}

/// Whether the head stays along a ray where the coefficients at marked positions are 0.
fn is_head_silent(own: &OwnCall, ray: &Numbers, places: &Places, marks: &[bool]) -> bool
    ensures { result ≡ true → (l : Mapping) → Vanishes places.now.positions.now marks.now l
        → IsSilent l own.now.caller.0 own.now.caller_sizes ray.now
        (length own.now.caller_sizes.list) }
{
    let sizes = &own.caller_sizes;
    for argument in 0..sizes.list.len() {
        if !is_silent(sizes, ray, places, marks, own.caller, argument) {
            return false;
        }
    }
    true
}

/// Marks each argument of the call that grows along a ray.
fn mark_call(own: &OwnCall, ray: &Numbers, places: &Places, marks: &mut Vec<bool>)
    ensures { (l : Mapping) → IsSilent l own.now.callee.0 own.now.callee_sizes ray.now
        (length own.now.callee_sizes.list)
        → Vanishes places.now.positions.now marks.old.items l
        → Vanishes places.now.positions.now marks.new.items l }
{
    for argument in 0..own.callee_sizes.list.len() {
        if grows(&own.callee_sizes, argument, ray) {
            mark(places, marks, own.callee, argument);
        }
    }
}

/// Whether the value of a row does not fall along a ray, as far as this is seen in numbers that fit.
fn holds_along(row: &Row, ray: &Numbers) -> bool
    ensures { result ≡ true → pos 0 ≤ℤ dot (plain_row row.now) (pos 0 ∷ ray.now) }
{
    match row.value_at(0, ray.as_slice()) {
        Some(value) => value >= 0,
        None => false,
    }
}

/// Whether it is seen that numbers are a ray of rows.
fn is_ray(rows: &Rows, ray: &Numbers) -> bool
    ensures { result ≡ true → IsRay rows.now ray.now }
{
    if ray.len() != rows.width as usize || !are_natural(ray.as_slice()) {
        return false;
    }
    for i in 0..rows.list.len() {
        if !holds_along(rows.list.get(i), ray) {
            return false;
        }
    }
    true
}

/// Whether a call can be reached.
fn is_reached(own: &OwnCall) -> bool
    ensures { result ≡ true → own.now.empty ≡ None }
{
    own.empty.is_none()
}

/// Marks what is 0 at a call along a ray, if this is a ray of the rows before the call.
fn spread_along(own: &OwnCall, ray: &Numbers, places: &Places, marks: &mut Vec<bool>)
    requires { HasNumbers own.now }
    ensures { (l : Mapping) → KeepsRays l own.now
        → Vanishes places.now.positions.now marks.old.items l
        → Vanishes places.now.positions.now marks.new.items l }
{
    if !is_reached(own) || !is_head_silent(own, ray, places, marks.as_slice()) {
        return;
    }
    if is_ray(&own.rows, ray) {
        mark_call(own, ray, places, marks);
    }
}

/// Marks what is 0 at a call where the head's marked coefficients are.
fn spread_at(own: &OwnCall, rays: &Sequence<Numbers>, places: &Places, marks: &mut Vec<bool>)
    requires { HasNumbers own.now }
    ensures { (l : Mapping) → KeepsRays l own.now
        → Vanishes places.now.positions.now marks.old.items l
        → Vanishes places.now.positions.now marks.new.items l }
{
    for i in 0..rays.len() {
        spread_along(own, rays.get(i), places, marks);
    }
}

/// Marks what is 0 at the call of a step, if there is one.
fn spread_from(calls: &[OwnCall], step: &Step, places: &Places, marks: &mut Vec<bool>)
    requires { AllByRecursion HasNumbers calls.now }
    ensures { (l : Mapping) → AllByRecursion (KeepsRays l) calls.now
        → Vanishes places.now.positions.now marks.old.items l
        → Vanishes places.now.positions.now marks.new.items l }
{
    if step.call >= calls.len() {
        return;
    }
    spread_at(&calls[step.call], &step.rays, places, marks);
}

/// Marks what is 0 at calls, from the first step to the last.
fn spread_onward(calls: &[OwnCall], steps: &[Step], places: &Places, marks: &mut Vec<bool>)
    requires { AllByRecursion HasNumbers calls.now }
    ensures { (l : Mapping) → AllByRecursion (KeepsRays l) calls.now
        → Vanishes places.now.positions.now marks.old.items l
        → Vanishes places.now.positions.now marks.new.items l }
{
    for i in 0..steps.len() {
        spread_from(calls, &steps[i], places, marks);
    }
}

/// Marks what is 0 at calls, from the last step to the first.
fn spread_back(calls: &[OwnCall], steps: &[Step], places: &Places, marks: &mut Vec<bool>)
    requires { AllByRecursion HasNumbers calls.now }
    ensures { (l : Mapping) → AllByRecursion (KeepsRays l) calls.now
        → Vanishes places.now.positions.now marks.old.items l
        → Vanishes places.now.positions.now marks.new.items l }
{
    for i in 0..steps.len() {
        spread_from(calls, &steps[steps.len() - 1 - i], places, marks);
    }
}

/// Marks what is 0 at calls where the marked coefficients are, going over the calls a few times, in the order of these
/// steps and from their end.
pub(crate) fn spread(calls: &[OwnCall], steps: &[Step], places: &Places, marks: &mut Vec<bool>)
    requires { AllByRecursion HasNumbers calls.now }
    ensures { (l : Mapping) → AllByRecursion (KeepsRays l) calls.now
        → Vanishes places.now.positions.now marks.old.items l
        → Vanishes places.now.positions.now marks.new.items l }
{
    spread_onward(calls, steps, places, marks);
    spread_onward(calls, steps, places, marks);
    spread_back(calls, steps, places, marks);
    spread_back(calls, steps, places, marks);
}

/// Marks at all places but those of a set's numbers, which count from 1.
pub(crate) fn unlisted(alloc: Global, count: usize, set: &[u32]) -> Result<Vec<bool>, AllocError>
    ensures { IfOk result (λ marks. AreUnlisted marks.items set.now) }
{
    let mut marks = vec![in alloc; true; count]?;
    for number in set {
        let number = *number as usize;
        if 0 < number && number <= marks.len() {
            marks[number - 1] = false;
        }
    }
    Ok(marks)
}

/// The numbers of the first `count` places that are not marked.
pub(crate) fn unmarked(alloc: Global, count: usize, marks: &[bool]) -> Result<Vec<u32>, AllocError>
    requires { count < 2 ^ 32 }
    ensures { IfOk result (λ numbers. AreMarkedOrIn count marks.now numbers.items) }
{
    let mut numbers = Vec::new(alloc);
    for k in 0..count {
        if !has_mark(marks, k) {
            numbers.push(k as u32 + 1)?;
        }
    }
    Ok(numbers)
}

/// Whether all places that are marked in the first list are marked in the second.
pub(crate) fn is_covered(few: &[bool], marks: &[bool]) -> bool
    ensures { result ≡ true → (k : ℕ) → slice_get few.now k ≡ Some true
        → slice_get marks.now k ≡ Some true }
{
    for k in 0..few.len() {
        if few[k] && !has_mark(marks, k) {
            return false;
        }
    }
    true
}
