//! The members of the components.

ghost use Rattle.std.specs.Prelude.{◌≡◌, ◌<◌, ◌^◌, ℕ, IfOk, All, length, slice_get, Some};
ghost use Rattle.call_components.specs.Members.{AreMembers};

use crate::numbering::Numbering;
use crate::pred_lists::PredLists;
use cti_terms::PredId;
use std::alloc::{AllocError, Global};

/// The predicates of each number, in ascending order.
pub(crate) fn members_by_number(
    alloc: Global,
    numbering: &Numbering,
) -> Result<PredLists, AllocError>
    requires few { length numbering.now.of.items < 2 ^ 32 }
    requires below { All (λ number. number < numbering.now.count) numbering.now.of.items }
    ensures { IfOk result (AreMembers numbering.now.of.items numbering.now.count) }
{
    let mut members = PredLists::new(alloc, numbering.count)?;
    for pred in 0..numbering.of.len() {
        members.push(numbering.of[pred], PredId(pred as u32))?;
    }
    Ok(members)
}
