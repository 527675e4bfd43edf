//! The supports of lists.

ghost use Rattle.std.specs.Prelude.{◌≡◌, ◌&&◌, ◌<◌, ◌^◌, IfOk, length, map, not};
ghost use Rattle.number_lists.specs.Features.{has_column, is_zero};
ghost use Rattle.number_lists.specs.Large.{has_number, held_support_from, is_held_used};
ghost use Rattle.number_turns.specs.Recalled.{spelled};

use crate::mapping::Mapping;
use crate::measure_list::MeasureList;
use crate::position::Position;
use number_turns::Feature;
use std::alloc::{AllocError, Global};

/// Whether a number is that of a column of a position.
fn has_column(position: Position, feature: Feature) -> bool
    ensures { result ≡ has_column (spelled feature) position }
{
    let last = u64::from(position.first) + u64::from(position.count);
    position.member == feature.member
        && position.first < feature.number
        && u64::from(feature.number) <= last
}

/// Whether a number is other than 0 and that of a column of a position.
fn counts(position: Position, feature: Feature, number: i128) -> bool
    ensures { result ≡ (not (is_zero number) && has_column (spelled feature) position) }
{
    number != 0 && has_column(position, feature)
}

/// Whether a mapping has a number other than 0 at a position.
fn has_number(mapping: &Mapping, position: Position) -> bool
    ensures { result ≡ has_number position (map spelled mapping.now.features) mapping.now.numbers }
{
    let features = mapping.features.as_slice();
    let numbers = mapping.numbers.as_slice();
    let count = features.len().min(numbers.len());
    for i in 0..count {
        if counts(position, features[i], numbers[i]) {
            return true;
        }
    }
    false
}

/// Whether some mapping of a list has a number other than 0 at a position.
fn is_used(list: &MeasureList, position: Position) -> bool
    ensures { result ≡ is_held_used position list.now.mappings }
{
    for mapping in list.mappings.as_slice() {
        if has_number(mapping, position) {
            return true;
        }
    }
    false
}

/// The numbers of the positions at which some mapping of a list has a number other than 0.
pub fn support_of(
    alloc: Global,
    positions: &[Position],
    list: &MeasureList,
) -> Result<Vec<u32>, AllocError>
    requires { length positions.now < 2 ^ 32 }
    ensures { IfOk result (λ support. support.items
        ≡ held_support_from 1 positions.now list.now.mappings) }
{
    let mut support = Vec::new(alloc);
    for i in 0..positions.len() {
        if is_used(list, positions[i]) {
            support.push(i as u32 + 1)?;
        }
    }
    Ok(support)
}
