//! The parts that modes rest on, as those of a certificate of mappings.

ghost use Rattle.std.specs.Prelude.{◌≡◌, IfOk};
ghost use Rattle.prove_parts.specs.Flat.{flat, without_sets};

use crate::flat::flat_levels;
use crate::parts::ProveParts;
use cert_structure::Parts;
use sequences::Sequence;
use std::alloc::{AllocError, Global};
use std::mem;
use termination_model::SizeRows;

/// The modes, the ground rows and the preconditions, with one mapping for each list. They are moved out of the parts.
pub fn flattened(alloc: Global, parts: &mut ProveParts) -> Result<Parts, AllocError>
    ensures flat { IfOk result (λ found. found ≡ flat parts.old) }
    ensures left { IfOk result (λ _. parts.new ≡ without_sets parts.old) }
{
    let levels = flat_levels(alloc, parts.kinds.as_slice(), parts.lists.as_slice())?;
    Ok(Parts {
        norm: None,
        modes: mem::replace(&mut parts.modes, Sequence::new(alloc)),
        rows: SizeRows::new(alloc),
        row_proofs: Sequence::new(alloc),
        grounds: mem::replace(&mut parts.grounds, Sequence::new(alloc)),
        levels,
        falls: Sequence::new(alloc),
        preconditions: mem::replace(&mut parts.preconditions, Sequence::new(alloc)),
        refutations: Sequence::new(alloc),
    })
}
