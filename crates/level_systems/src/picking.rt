//! The positions of a set.

ghost use Rattle.std.specs.Prelude.{◌≡◌, ◌<◌, ◌^◌, IfOk, filter, length, map, nat_eq};
ghost use Rattle.std.specs.List.{list_any};
ghost use Rattle.level_systems.specs.Held.{spelled};
ghost use Rattle.termination_model.specs.mappings.BlownSupports.{same_position};
ghost use Rattle.termination_model.specs.mappings.Supports.{picked_from};

use crate::position::Position;
use std::alloc::{AllocError, Global};

/// Whether a number is in a set.
fn has_number(set: &[u32], number: usize) -> bool
    ensures { result ≡ list_any (λ x. nat_eq number x) set.now }
{
    for other in set {
        if number == *other as usize {
            return true;
        }
    }
    false
}

/// The positions of a set of their numbers, which count from 1.
pub fn picked(
    alloc: Global,
    positions: &[Position],
    set: &[u32],
) -> Result<Vec<Position>, AllocError>
    ensures { IfOk result (λ picked. map spelled picked.items
        ≡ picked_from 1 (map spelled positions.now) set.now) }
{
    let mut picked = Vec::new(alloc);
    for i in 0..positions.len() {
        if has_number(set, i + 1) {
            picked.push(positions[i])?;
        }
    }
    Ok(picked)
}

/// Whether a position is in a list.
fn is_picked(picked: &[Position], position: Position) -> bool
    ensures { result ≡ list_any (λ q. same_position (spelled position) (spelled q)) picked.now }
{
    for other in picked {
        if position.pred.0 == other.pred.0 && position.argument == other.argument {
            return true;
        }
    }
    false
}

/// The picked ones among positions, in their order.
pub fn in_order(
    alloc: Global,
    order: &[Position],
    picked: &[Position],
) -> Result<Vec<Position>, AllocError>
    ensures { IfOk result (λ at. map spelled at.items ≡ filter
        (λ r. list_any (same_position r) (map spelled picked.now)) (map spelled order.now)) }
{
    let mut at = Vec::new(alloc);
    for position in order {
        if is_picked(picked, *position) {
            at.push(*position)?;
        }
    }
    Ok(at)
}
