//! The numbers of the mappings of a turn.

ghost use Rattle.std.specs.Prelude.{◌≡◌, ◌+◌, ◌++◌, nat_eq, IfOk, OnOk, filter, map, not};
ghost use Rattle.std.specs.List.{list_any};
ghost use Rattle.number_lists.specs.Features.{columns_of, features_of, lacks, picked_from};
ghost use Rattle.number_turns.specs.Recalled.{recalled, recalled_of, spelled};

use crate::position::Position;
use number_turns::{Feature, Transition};
use std::alloc::{AllocError, Global};

/// The number of a column of a position, the first of which is 0. Numbers from 2^32 on have no memory.
fn column_number(position: Position, i: u32) -> Result<u32, AllocError>
    ensures { IfOk result (λ number. number ≡ position.first + i + 1) }
{
    let number = u64::from(position.first) + u64::from(i) + 1;
    match u32::try_from(number) {
        Ok(number) => Ok(number),
        Err(_) => Err(AllocError),
    }
}

/// Adds the numbers of a position's columns.
fn add_columns(features: &mut Vec<Feature>, position: Position) -> Result<(), AllocError>
    ensures { OnOk result (map spelled features.new.items
        ≡ map spelled features.old.items ++ columns_of position) }
{
    for i in 0..position.count {
        features.push(Feature {
            member: position.member,
            number: column_number(position, i)?,
        })?;
    }
    Ok(())
}

/// The positions of a set.
pub(crate) fn picked(
    alloc: Global,
    positions: &[Position],
    set: &[u32],
) -> Result<Vec<Position>, AllocError>
    ensures { IfOk result (λ at. at.items ≡ picked_from 1 positions.now set.now) }
{
    let mut at = Vec::new(alloc);
    for i in 0..positions.len() {
        if has_number(set, i + 1) {
            at.push(positions[i])?;
        }
    }
    Ok(at)
}

/// Whether a set has a number.
fn has_number(set: &[u32], number: usize) -> bool
    ensures { result ≡ list_any (λ x. nat_eq number x) set.now }
{
    for other in set {
        if number == *other as usize {
            return true;
        }
    }
    false
}

/// The numbers of the columns of positions, and the offsets of the members.
pub(crate) fn features_of(
    alloc: Global,
    members: &[u32],
    positions: &[Position],
) -> Result<Vec<Feature>, AllocError>
    ensures { IfOk result (λ features. map spelled features.items
        ≡ features_of members.now positions.now) }
{
    let mut features = Vec::new(alloc);
    for position in positions {
        add_columns(&mut features, *position)?;
    }
    add_offsets(&mut features, members)?;
    Ok(features)
}

/// Adds the offsets of members.
fn add_offsets(features: &mut Vec<Feature>, members: &[u32]) -> Result<(), AllocError>
    ensures { OnOk result (map spelled features.new.items
        ≡ map spelled features.old.items ++ map (λ q. (q, 0)) members.now) }
{
    for member in members {
        features.push(Feature {
            member: *member,
            number: 0,
        })?;
    }
    Ok(())
}

/// Whether a transition lacks a number.
fn lacks(transition: &Transition, feature: Feature) -> bool
    ensures { result ≡ lacks (recalled transition.now) (spelled feature) }
{
    transition.lacks(feature)
}

/// Whether some transition lacks a number.
fn is_lacked(transitions: &[&Transition], feature: Feature) -> bool
    ensures { result ≡ list_any (λ τ. lacks τ (spelled feature)) (recalled_of transitions.now) }
{
    for transition in transitions {
        if lacks(transition, feature) {
            return true;
        }
    }
    false
}

/// The numbers that no transition lacks.
pub(crate) fn had_by_all(
    alloc: Global,
    features: &[Feature],
    transitions: &[&Transition],
) -> Result<Vec<Feature>, AllocError>
    ensures { IfOk result (λ had. map spelled had.items
        ≡ filter (λ f. not (list_any (λ τ. lacks τ f) (recalled_of transitions.now)))
        (map spelled features.now)) }
{
    let mut had = Vec::new(alloc);
    for feature in features {
        if !is_lacked(transitions, *feature) {
            had.push(*feature)?;
        }
    }
    Ok(had)
}
