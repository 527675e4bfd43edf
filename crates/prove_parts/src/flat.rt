//! Lists as mappings: one mapping for each list, positive at the arguments that some measure of it has a number at.

ghost use Rattle.std.specs.Prelude.{◌≡◌, if◌then◌else◌, IfOk, map, take, drop, pos};
ghost use Rattle.std.specs.List.{list_any};
ghost use Rattle.prove_parts.specs.Flat.{flat_levels, is_measured, is_other, marks_from, union_part};

use crate::widths::columns;
use linear_rows::Numbers;
use number_tests::LevelPart;
use prove_certificate::CertKind;
use sequences::Sequence;
use std::alloc::{AllocError, Global};

/// Whether some number is not 0.
fn some_other(numbers: &[i128]) -> bool
    ensures { result ≡ list_any is_other numbers.now }
{
    numbers.iter().any(|number| *number != 0)
}

/// The numbers at `count` columns from `first` on, or fewer where there are no more.
fn numbers_at(numbers: &[i128], first: u128, count: u128) -> &[i128]
    ensures { result.now ≡ take count (drop first numbers.now) }
{
    let start = first.min(numbers.len() as u128) as usize;
    let rest = &numbers[start..];
    &rest[..count.min(rest.len() as u128) as usize]
}

/// Whether some measure has a number other than 0 at one of `count` columns from `first` on.
fn is_measured(measures: &[LevelPart], first: u128, count: u128) -> bool
    ensures { result ≡ is_measured first count measures.now }
{
    measures.iter().any(|measure| some_other(numbers_at(measure.coeffs.as_slice(), first, count)))
}

/// 1 for each argument that a measure has a number other than 0 at, and else 0.
fn marks(alloc: Global, kinds: &[CertKind], measures: &[LevelPart]) -> Result<Numbers, AllocError>
    ensures { IfOk result (λ marks. marks ≡ marks_from 0 kinds.now measures.now) }
{
    let mut marks = Vec::new(alloc);
    let mut first = 0;
    for kind in kinds {
        let count = columns(*kind);
        marks.push(if is_measured(measures, first, count) {
            1
        } else {
            0
        })?;
        first += count;
    }
    Ok(Numbers::from_vec(marks))
}

/// A part whose coefficients are 1 at the arguments that a list measures, and else 0.
pub fn union_part(
    alloc: Global,
    kinds: &[CertKind],
    measures: &[LevelPart],
) -> Result<LevelPart, AllocError>
    ensures { IfOk result (λ part. part ≡ union_part kinds.now measures.now) }
{
    Ok(LevelPart {
        coeffs: marks(alloc, kinds, measures)?,
        offset: 0,
    })
}

/// Such a part for each list of a predicate whose arguments have these kinds.
fn union_parts(
    alloc: Global,
    kinds: &[CertKind],
    own: &[Sequence<LevelPart>],
) -> Result<Sequence<LevelPart>, AllocError>
    ensures { IfOk result (λ parts. parts ≡ map (union_part kinds.now) own.now) }
{
    let mut parts = Sequence::new(alloc);
    for list in own {
        parts.push(union_part(alloc, kinds, list.as_slice())?)?;
    }
    Ok(parts)
}

/// For each predicate one mapping for each list of its component, with a coefficient for each argument.
pub fn flat_levels(
    alloc: Global,
    kinds: &[Sequence<CertKind>],
    lists: &[Sequence<Sequence<LevelPart>>],
) -> Result<Sequence<Sequence<LevelPart>>, AllocError>
    ensures { IfOk result (λ levels. levels ≡ flat_levels kinds.now lists.now) }
{
    let mut levels = Sequence::new(alloc);
    let mut rest = lists;
    for own in kinds {
        let Some((first, more)) = rest.split_first() else {
            return Ok(levels);
        };
        levels.push(union_parts(alloc, own.as_slice(), first.as_slice())?)?;
        rest = more;
    }
    Ok(levels)
}
