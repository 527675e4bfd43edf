//! The parts of lists as parts of mappings.

ghost use Rattle.std.specs.Prelude.{◌≡◌, IfOk};
ghost use Rattle.lex_certificate.specs.Flat.{flat};

use cert_structure::Parts;
use lex_certificate::{LexParts, flat_levels};
use sequences::Sequence;
use std::alloc::{AllocError, Global};
use std::mem;
use termination_model::SizeRows;

/// The parts with one mapping for each list, and without the proofs of drops. They are moved out of the others.
pub(crate) fn flattened(alloc: Global, parts: &mut LexParts) -> Result<Parts, AllocError>
    ensures { IfOk result (λ found. found ≡ flat parts.old) }
{
    let levels = flat_levels(alloc, parts.lists.as_slice())?;
    Ok(Parts {
        norm: None,
        modes: mem::replace(&mut parts.modes, Sequence::new(alloc)),
        rows: mem::replace(&mut parts.rows, SizeRows::new(alloc)),
        row_proofs: mem::replace(&mut parts.row_proofs, Sequence::new(alloc)),
        grounds: mem::replace(&mut parts.grounds, Sequence::new(alloc)),
        levels,
        falls: Sequence::new(alloc),
        preconditions: mem::replace(&mut parts.preconditions, Sequence::new(alloc)),
        refutations: mem::replace(&mut parts.stuck, Sequence::new(alloc)),
    })
}
