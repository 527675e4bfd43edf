//! Parts that are put into the tables of a program.

ghost use Rattle.std.specs.Prelude.{◌≡◌, ◌≤◌, ◌<◌, OnOk, All, length, map};
ghost use Rattle.call_components.specs.Numbers.{number_of};
ghost use Rattle.solved_program.specs.Taken.{AreTaken, place_of};

use cti_terms::PredId;
use linear_rows::{Multipliers, copied_multipliers};
use sequences::Sequence;
use std::alloc::{AllocError, Global};
use termination_model::SizeRows;

/// Puts the rows of these predicates in the places of those of another table.
pub(crate) fn take_rows(
    alloc: Global,
    members: &[PredId],
    from: &SizeRows,
    to: &mut SizeRows,
) -> Result<(), AllocError>
    requires members { All (λ q. q.0 < length from.now) members.now }
    requires each { length from.now ≡ length to.old }
    ensures each { OnOk result (length to.new ≡ length to.old) }
    ensures taken { OnOk result (AreTaken (map number_of members.now) from.now to.old to.new) }
{
    for q in members {
        let own = from.get(q.0 as usize).copy(alloc)?;
        to.set(q.0 as usize, own);
    }
    Ok(())
}

/// Puts the proofs of these clauses in the places of those of another table.
pub(crate) fn take_proofs(
    alloc: Global,
    own: &[u32],
    from: &[Sequence<Multipliers>],
    to: &mut Sequence<Sequence<Multipliers>>,
) -> Result<(), AllocError>
    requires own { All (λ k. (1 ≤ k) × (k ≤ length from.now)) own.now }
    requires each { length from.now ≡ length to.old }
    ensures each { OnOk result (length to.new ≡ length to.old) }
    ensures taken { OnOk result (AreTaken (map place_of own.now) from.now to.old to.new) }
{
    for k in own {
        let place = *k as usize - 1;
        let by = copied_multipliers(alloc, from[place].as_slice())?;
        to.set(place, by);
    }
    Ok(())
}
