//! Steps on clauses that have other numbers.

ghost use Rattle.std.specs.Prelude.{◌≡◌, ◌<◌, IfOk, length, map};
ghost use Rattle.numeric_model.specs.States.{plain_step};
ghost use Rattle.solved_program.specs.Renumbered.{in_turn, next_place};

use crate::copies::copied_step;
use numeric_model::Step;
use sequences::Sequence;
use std::alloc::{AllocError, Global};

/// The place after this one, where the first comes after the last.
fn next_place(count: usize, place: usize) -> usize
    requires { place < count }
    ensures next { result ≡ next_place count place }
    ensures within { result < count }
{
    if place + 1 == count { 0 } else { place + 1 }
}

/// Steps on clauses that have these numbers now, one step for each in a pass.
pub(crate) fn renumbered(
    alloc: Global,
    steps: &[Step],
    own: &[u32],
) -> Result<Sequence<Step>, AllocError>
    requires { 0 < length own.now }
    ensures { IfOk result (λ copy. map plain_step copy
        ≡ in_turn own.now 0 (map plain_step steps.now)) }
{
    let mut copy = Sequence::new(alloc);
    let mut place = 0;
    for step in steps {
        let next = copied_step(alloc, step, own[place])?;
        copy.push(next)?;
        place = next_place(own.len(), place);
    }
    Ok(copy)
}
