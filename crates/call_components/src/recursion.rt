//! Which components are recursive.

ghost use Rattle.std.specs.Prelude.{◌≡◌, ◌<◌, ◌↔◌, ℕ, IsTrue, IfOk, All, length, slice_get, Some, true};
ghost use Rattle.std.specs.List.{AllByRecursion};
ghost use Rattle.call_components.specs.Table.{AreWithin, Has};
ghost use Rattle.call_components.specs.Members.{CallsWithin};

use crate::numbering::Numbering;
use crate::pred_list::Preds;
use crate::pred_lists::PredLists;
use cti_terms::PredId;
use std::alloc::{AllocError, Global};

/// Whether some predicate of the row has this number.
fn has_number(row: &Preds, of: &[u32], number: u32) -> bool
    requires { AllByRecursion (λ b. b < length of.now) row.now }
    ensures { IsTrue result ↔ ((b : ℕ) × Has row.now b × (slice_get of.now b ≡ Some number)) }
{
    for pred in row.as_slice() {
        if of[pred.0 as usize] == number {
            return true;
        }
    }
    false
}

/// For each number whether a predicate of it calls one of it.
pub(crate) fn recursive_numbers(
    alloc: Global,
    table: &PredLists,
    numbering: &Numbering,
) -> Result<Vec<bool>, AllocError>
    requires within { AreWithin (length table.now) table.now }
    requires each { length numbering.now.of.items ≡ length table.now }
    requires below { All (λ number. number < numbering.now.count) numbering.now.of.items }
    ensures count { IfOk result (λ answers. length answers.items ≡ numbering.now.count) }
    ensures answer { IfOk result (λ answers. (c : ℕ) → c < numbering.now.count
        → (slice_get answers.items c ≡ Some true) ↔ CallsWithin table.now numbering.now.of.items c
        (length table.now)) }
{
    let mut answers = vec![in alloc; false; numbering.count as usize]?;
    for caller in 0..table.count() {
        let number = numbering.of[caller as usize];
        if has_number(table.row(caller), numbering.of.as_slice(), number) {
            answers[number as usize] = true;
        }
    }
    Ok(answers)
}
