//! Where members and argument positions stood before an edit.

ghost use Rattle.std.specs.Prelude.{◌≡◌, ◌<◌, ◌+◌, ◌^◌, ◌↔◌, IsTrue, IfOk, OnOk, length, map};
ghost use Rattle.std.specs.List.{AllByRecursion};
ghost use Rattle.call_components.specs.Numbers.{number_of};
ghost use Rattle.level_systems.specs.Held.{spelled};
ghost use Rattle.carried_mappings.specs.Order.{AreNamesakes};
ghost use Rattle.carried_mappings.specs.Reordered.{AreOldNumbers, ArePlaces, HasOldNumber, HasPlace, IsOldNumber, IsPlace};

use crate::order::is_namesake;
use cti_terms::PredId;
use level_systems::Position;
use solved_program::Edit;
use std::alloc::{AllocError, Global};

/// The place of the predicate that has this one's name and arity, among members of the old program.
fn place_before(edit: &Edit<'_>, before: &[PredId], member: PredId) -> usize
    requires before { AllByRecursion (λ q. q.0 < length edit.now.before.now.preds) before.now }
    requires member { member.0 < length edit.now.after.now.preds }
    requires there { HasPlace edit.now.before.now edit.now.after.now
        (map number_of before.now) member.0 }
    ensures { IsPlace edit.now.before.now edit.now.after.now
        (map number_of before.now) member.0 result }
{
    for j in 0..before.len() {
        if is_namesake(edit, before[j], member) {
            return j;
        }
    }
    0
}

/// The places that the namesakes of members had among members of the old program.
pub(crate) fn places_before(
    alloc: Global,
    edit: &Edit<'_>,
    before: &[PredId],
    after: &[PredId],
) -> Result<Vec<usize>, AllocError>
    requires before { AllByRecursion (λ q. q.0 < length edit.now.before.now.preds) before.now }
    requires after { AllByRecursion (λ q. q.0 < length edit.now.after.now.preds) after.now }
    requires there { AllByRecursion (λ q. HasPlace edit.now.before.now edit.now.after.now
        (map number_of before.now) q.0) after.now }
    ensures { IfOk result (λ places. ArePlaces edit.now.before.now edit.now.after.now
        (map number_of before.now) (map number_of after.now) places.items) }
{
    let mut places = Vec::new(alloc);
    for i in 0..after.len() {
        let place = place_before(edit, before, after[i]);
        places.push(place)?;
    }
    Ok(places)
}

/// Whether a position from before an edit is this one, by the predicate's name and arity and by the argument.
fn is_same_position(edit: &Edit<'_>, before: Position, after: Position) -> bool
    requires before { before.pred.0 < length edit.now.before.now.preds }
    requires after { after.pred.0 < length edit.now.after.now.preds }
    ensures { IsTrue result ↔ (AreNamesakes edit.now before.pred.0 after.pred.0
        × (before.argument ≡ after.argument)) }
{
    is_namesake(edit, before.pred, after.pred) && before.argument == after.argument
}

/// The number of the position of this predicate's argument, by its name and arity, among positions of the old program.
fn number_before(edit: &Edit<'_>, before: &[Position], position: Position) -> u32
    requires few { length before.now + 1 < 2 ^ 32 }
    requires before { AllByRecursion
        (λ x. x.pred.0 < length edit.now.before.now.preds) before.now }
    requires position { position.pred.0 < length edit.now.after.now.preds }
    requires there { HasOldNumber edit.now.before.now edit.now.after.now
        (map spelled before.now) (spelled position) }
    ensures { IsOldNumber edit.now.before.now edit.now.after.now
        (map spelled before.now) (spelled position) result }
{
    for i in 0..before.len() {
        if is_same_position(edit, before[i], position) {
            return i as u32 + 1;
        }
    }
    0
}

/// The number that each position had before the edit. Fails where there are 2^32 - 1 positions or more, before or
/// after.
pub(crate) fn numbers_before(
    alloc: Global,
    edit: &Edit<'_>,
    before: &[Position],
    after: &[Position],
) -> Result<Vec<u32>, AllocError>
    requires before { AllByRecursion
        (λ x. x.pred.0 < length edit.now.before.now.preds) before.now }
    requires after { AllByRecursion (λ x. x.pred.0 < length edit.now.after.now.preds) after.now }
    requires there { AllByRecursion (λ x. HasOldNumber edit.now.before.now edit.now.after.now
        (map spelled before.now) (spelled x)) after.now }
    ensures few_before { OnOk result (length before.now + 1 < 2 ^ 32) }
    ensures few { OnOk result (length after.now + 1 < 2 ^ 32) }
    ensures numbers { IfOk result (λ numbers. AreOldNumbers edit.now.before.now edit.now.after.now
        (map spelled before.now) (map spelled after.now) numbers.items) }
{
    let most = u32::MAX as usize;
    if before.len() >= most || after.len() >= most {
        return Err(AllocError);
    }
    let mut numbers = Vec::new(alloc);
    for i in 0..after.len() {
        let number = number_before(edit, before, after[i]);
        numbers.push(number)?;
    }
    Ok(numbers)
}
