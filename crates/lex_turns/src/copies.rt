//! Copies of mappings.

ghost use Rattle.std.specs.Prelude.{◌≡◌, IfOk};

use level_systems::Measure;
use sequences::Sequence;
use std::alloc::{AllocError, Global};

/// A copy of a part.
fn copied_measure(alloc: Global, measure: &Measure) -> Result<Measure, AllocError>
    ensures { IfOk result (λ copy. copy ≡ measure.now) }
{
    Ok(Measure {
        pred: measure.pred,
        part: measure.part.copy(alloc)?,
    })
}

/// A copy of a mapping.
pub(crate) fn copied_measures(
    alloc: Global,
    measures: &[Measure],
) -> Result<Sequence<Measure>, AllocError>
    ensures { IfOk result (λ copy. copy ≡ measures.now) }
{
    let mut copies = Sequence::new(alloc);
    for measure in measures {
        copies.push(copied_measure(alloc, measure)?)?;
    }
    Ok(copies)
}
