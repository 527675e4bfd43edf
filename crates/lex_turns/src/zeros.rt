//! The mapping that is 0.

ghost use Rattle.std.specs.Prelude.{◌≡◌, ◌<◌, [], IfOk, length, map};
ghost use Rattle.std.specs.List.{AllByRecursion};
ghost use Rattle.call_components.specs.Numbers.{number_of};
ghost use Rattle.level_systems.specs.Valued.{IsPartOf};
ghost use Rattle.lex_turns.specs.Zeros.{AreZeros};
ghost use Rattle.termination_model.specs.mappings.Ready.{arity_in};
ghost use Rattle.termination_model.specs.mappings.SupportSystem.{mapping_at};

use cti_terms::{PredId, Program};
use level_systems::{Measure, level_part};
use linear_rows::Numbers;
use number_tests::LevelPart;
use sequences::Sequence;
use std::alloc::{AllocError, Global};

/// The part of a member.
fn zero_part(alloc: Global, p: &Program, pred: PredId) -> Result<LevelPart, AllocError>
    requires { pred.0 < length p.now.preds }
    ensures { IfOk result (IsPartOf (mapping_at (arity_in p.now) [] [] [] []) pred.0) }
{
    let part = level_part(alloc, p, &[], &[], &Numbers::new(alloc), pred)?;
    Ok(part)
}

/// The parts of the members in the mapping that is 0.
pub(crate) fn zero_measures(
    alloc: Global,
    p: &Program,
    members: &[PredId],
) -> Result<Sequence<Measure>, AllocError>
    requires { AllByRecursion (λ q. q < length p.now.preds) (map number_of members.now) }
    ensures { IfOk result (AreZeros p.now (map number_of members.now)) }
{
    let mut measures = Sequence::new(alloc);
    for member in members {
        let part = zero_part(alloc, p, *member)?;
        measures.push(Measure {
            pred: *member,
            part,
        })?;
    }
    Ok(measures)
}
