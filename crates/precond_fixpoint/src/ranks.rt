//! Ranks of predicates, which are equal within a component.

ghost use Rattle.std.specs.Prelude.{◌≡◌, ◌+◌, IfOk, map};
ghost use Rattle.call_components.specs.Partition.{AreComponents};

use call_components::Components;
use cti_terms::{PredId, Program};
use std::alloc::{AllocError, Global};

/// Gives for each predicate one more than the number of its component.
pub fn component_ranks(
    alloc: Global,
    p: &Program,
    comps: &Components,
) -> Result<Vec<u32>, AllocError>
    requires { AreComponents p.now comps.now }
    ensures { IfOk result (λ ranks. ranks.items ≡ map (λ c. c + 1) comps.now.of) }
{
    let _count = comps.count();
    let mut ranks = Vec::new(alloc);
    for q in 0..p.preds() {
        let component = comps.of(PredId(q));
        ranks.push(component + 1)?;
    }
    Ok(ranks)
}
