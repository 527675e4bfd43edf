//! Lists as mappings: one mapping for each list, positive where some measure of it is.

ghost use Rattle.std.specs.Prelude.{◌≡◌, ◌||◌, if◌then◌else◌, IfOk, map, pos};
ghost use Rattle.lex_certificate.specs.Flat.{united, united_coefficients, union_part};
ghost use Rattle.number_tests.specs.Levels.{is_positive};

use linear_rows::Numbers;
use number_tests::LevelPart;
use sequences::Sequence;
use std::alloc::{AllocError, Global};

/// 1 where either number is positive, and else 0.
fn either(x: i128, y: i128) -> i128
    ensures { result ≡ (if is_positive x || is_positive y then pos 1 else pos 0) }
{
    if x > 0 || y > 0 { 1 } else { 0 }
}

/// 1 where a number of either list is positive; past the end of the shorter list, the numbers of the longer one.
fn united(alloc: Global, xs: &[i128], ys: &[i128]) -> Result<Numbers, AllocError>
    ensures { IfOk result (λ both. both ≡ united xs.now ys.now) }
{
    let mut both = Vec::new(alloc);
    let mut left = xs;
    let mut right = ys;
    while let Some((x, more)) = left.split_first() {
        let Some((y, others)) = right.split_first() else {
            both.extend_from_slice(left)?;
            return Ok(Numbers::from_vec(both));
        };
        both.push(either(*x, *y))?;
        left = more;
        right = others;
    }
    both.extend_from_slice(right)?;
    Ok(Numbers::from_vec(both))
}

/// The coefficients of a list's measures, united.
fn united_coefficients(alloc: Global, measures: &[LevelPart]) -> Result<Numbers, AllocError>
    ensures { IfOk result (λ coeffs. coeffs ≡ united_coefficients measures.now) }
{
    let mut coeffs = Numbers::new(alloc);
    let mut rest = measures;
    while let Some((last, before)) = rest.split_last() {
        coeffs = united(alloc, last.coeffs.as_slice(), coeffs.as_slice())?;
        rest = before;
    }
    Ok(coeffs)
}

/// A part whose coefficients are positive at the support of a list.
pub fn union_part(alloc: Global, measures: &[LevelPart]) -> Result<LevelPart, AllocError>
    ensures { IfOk result (λ part. part ≡ union_part measures.now) }
{
    Ok(LevelPart {
        coeffs: united_coefficients(alloc, measures)?,
        offset: 0,
    })
}

/// Such a part for each list of a predicate.
fn union_parts(
    alloc: Global,
    own: &[Sequence<LevelPart>],
) -> Result<Sequence<LevelPart>, AllocError>
    ensures { IfOk result (λ parts. parts ≡ map union_part own.now) }
{
    let mut parts = Sequence::new(alloc);
    for list in own {
        parts.push(union_part(alloc, list.as_slice())?)?;
    }
    Ok(parts)
}

/// For each predicate one mapping for each list of its component, positive where some measure of the list is.
pub fn flat_levels(
    alloc: Global,
    lists: &[Sequence<Sequence<LevelPart>>],
) -> Result<Sequence<Sequence<LevelPart>>, AllocError>
    ensures { IfOk result (λ levels. levels ≡ map (map union_part) lists.now) }
{
    let mut levels = Sequence::new(alloc);
    for own in lists {
        levels.push(union_parts(alloc, own.as_slice())?)?;
    }
    Ok(levels)
}
