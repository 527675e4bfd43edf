//! The component of each predicate.

ghost use Rattle.std.specs.Prelude.{◌≡◌, IfOk, length};

use call_components::Components;
use cti_terms::{PredId, Program};
use std::alloc::{AllocError, Global};

/// The number of each predicate's component.
pub(crate) fn component_numbers(
    alloc: Global,
    p: &Program,
    comps: &Components,
) -> Result<Vec<u32>, AllocError>
    requires { length comps.now.of ≡ length p.now.preds }
    ensures { IfOk result (λ numbers. numbers.items ≡ comps.now.of) }
{
    let mut numbers = Vec::new(alloc);
    for q in 0..p.preds() {
        numbers.push(comps.of(PredId(q)))?;
    }
    Ok(numbers)
}
