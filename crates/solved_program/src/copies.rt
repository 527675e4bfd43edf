//! Copies of steps.

ghost use Rattle.std.specs.Prelude.{◌≡◌, IfOk};
ghost use Rattle.numeric_model.specs.States.{plain_step};
ghost use Rattle.component_laws.specs.Runs.{with_number};

use numeric_model::Step;
use std::alloc::{AllocError, Global};

/// A copy of a step, on the clause of another number.
pub(crate) fn copied_step(alloc: Global, step: &Step, clause: u32) -> Result<Step, AllocError>
    ensures { IfOk result (λ copy. plain_step copy ≡ with_number clause (plain_step step.now)) }
{
    let image = step.image.clone()?;
    let rows = step.rows.clone()?;
    Ok(Step {
        clause,
        image,
        image_weak: step.image_weak,
        how: step.how,
        rows,
        step_weak: step.step_weak,
    })
}
