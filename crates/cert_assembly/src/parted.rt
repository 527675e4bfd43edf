//! The parts of predicates in a mapping.

ghost use Rattle.std.specs.Prelude.{◌≡◌, ◌<◌, IfOk, length};
ghost use Rattle.cert_assembly.specs.Parted.{part_or_zero, zero_part};
ghost use Rattle.cert_structure.specs.Shape.{arity_in};
ghost use Rattle.level_systems.specs.Mappings.{level_in};

use cti_terms::{PredId, Program};
use level_systems::Measure;
use linear_rows::zeros;
use number_tests::LevelPart;
use std::alloc::{AllocError, Global};

/// A part with the given number of coefficients of 0, and an offset of 0.
pub fn zero_part(alloc: Global, width: u32) -> Result<LevelPart, AllocError>
    ensures { IfOk result (λ part. part ≡ zero_part width) }
{
    Ok(LevelPart {
        coeffs: zeros(alloc, width as usize)?,
        offset: 0,
    })
}

/// The part of a predicate in a mapping; zeros, where it has none.
pub fn part_of(
    alloc: Global,
    p: &Program,
    measures: &[Measure],
    q: PredId,
) -> Result<LevelPart, AllocError>
    requires { q.0 < length p.now.preds }
    ensures { IfOk result (λ part. part ≡ part_or_zero (arity_in p.now q.0)
        (level_in measures.now q.0)) }
{
    for measure in measures {
        if measure.pred.0 == q.0 {
            return measure.part.copy(alloc);
        }
    }
    zero_part(alloc, p.pred(q).arity)
}
