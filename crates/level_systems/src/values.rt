//! Values of positions and members at a point of a support's system.

ghost use Rattle.std.specs.Prelude.{◌≡◌, ◌<◌, ◌≤◌, ◌+◌, ℕ, List, drop, length, map, pos, take, IfOk};
ghost use Rattle.call_components.specs.Numbers.{number_of};
ghost use Rattle.level_systems.specs.Held.{spelled};
ghost use Rattle.level_systems.specs.Valued.{IsPartOf};
ghost use Rattle.linear_rows.specs.Step.{columns};
ghost use Rattle.termination_model.specs.mappings.Ready.{Apart, arity_in};
ghost use Rattle.termination_model.specs.mappings.Supports.{AreDistinct};
ghost use Rattle.termination_model.specs.mappings.SupportSystem.{mapping_at, value_of_member, value_of_position};

use crate::position::Position;
use cti_terms::{PredId, Program};
use linear_rows::Numbers;
use number_tests::LevelPart;
use std::alloc::{AllocError, Global};

/// The coefficient of a position, or 0 where it has none.
fn coefficient_at(positions: &[Position], values: &Numbers, pred: PredId, argument: u32) -> i128
    requires { AreDistinct (map spelled positions.now) }
    ensures { (cs : List ℕ) → length cs ≡ length positions.now
        → take (length positions.now) values.now ≡ map pos cs
        → result ≡ pos (value_of_position (map spelled positions.now) cs pred.0 argument) }
{
    for i in 0..positions.len() {
        if positions[i].pred.0 == pred.0 && positions[i].argument == argument {
            return values.entry(i);
        }
    }
    0
}

/// The offset of a member, or 0 where it has none. Offsets come after the given number of other values.
fn offset_at(members: &[PredId], values: &Numbers, before: usize, pred: PredId) -> i128
    requires apart { Apart (map number_of members.now) }
    requires room { before + length members.now ≤ length values.now }
    ensures { (os : List ℕ) → length os ≡ length members.now
        → take (length members.now) (drop before values.now) ≡ map pos os
        → result ≡ pos (value_of_member (map number_of members.now) os pred.0) }
{
    for i in 0..members.len() {
        if members[i].0 == pred.0 {
            return values.as_slice()[before..][i];
        }
    }
    0
}

/// The coefficients of a predicate.
fn coefficients(
    alloc: Global,
    positions: &[Position],
    values: &Numbers,
    pred: PredId,
    arity: u32,
) -> Result<Numbers, AllocError>
    requires { AreDistinct (map spelled positions.now) }
    ensures { IfOk result (λ numbers. (cs : List ℕ) → length cs ≡ length positions.now
        → take (length positions.now) values.now ≡ map pos cs
        → numbers ≡ map pos (map (value_of_position (map spelled positions.now) cs pred.0)
        (columns 0 arity))) }
{
    let mut numbers = Numbers::new(alloc);
    for argument in 0..arity {
        numbers.push(coefficient_at(positions, values, pred, argument))?;
    }
    Ok(numbers)
}

/// The part of a member in the mapping that values of positions and members give.
pub fn level_part(
    alloc: Global,
    p: &Program,
    positions: &[Position],
    members: &[PredId],
    values: &Numbers,
    pred: PredId,
) -> Result<LevelPart, AllocError>
    requires positions { AreDistinct (map spelled positions.now) }
    requires members { Apart (map number_of members.now) }
    requires pred { pred.0 < length p.now.preds }
    requires room { length positions.now + length members.now ≤ length values.now }
    ensures { IfOk result (λ part. (cs os : List ℕ) → length cs ≡ length positions.now
        → length os ≡ length members.now
        → take (length positions.now) values.now ≡ map pos cs
        → take (length members.now) (drop (length positions.now) values.now) ≡ map pos os
        → IsPartOf (mapping_at (arity_in p.now) (map spelled positions.now)
        (map number_of members.now) cs os) pred.0 part) }
{
    let coeffs = coefficients(alloc, positions, values, pred, p.pred(pred).arity)?;
    Ok(LevelPart {
        coeffs,
        offset: offset_at(members, values, positions.len(), pred),
    })
}
