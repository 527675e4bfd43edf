//! Sets of positions, under other numbers.

ghost use Rattle.std.specs.Prelude.{◌≡◌, ◌<◌, ◌+◌, ◌^◌, IfOk, length, map, nat_eq};
ghost use Rattle.std.specs.List.{list_any};
ghost use Rattle.carried_mappings.specs.Reordered.{is_same_set, renumbered};

use sequences::Sequence;
use std::alloc::{AllocError, Global};
use termination_model::is_part;

/// Whether a number is in a set.
fn has_number(set: &[u32], number: u32) -> bool
    ensures { result ≡ list_any (λ x. nat_eq number x) set.now }
{
    for other in set {
        if number == *other {
            return true;
        }
    }
    false
}

/// The numbers that the positions of a set have now, where these are the numbers that all positions had.
pub(crate) fn renumbered(
    alloc: Global,
    numbers: &[u32],
    set: &[u32],
) -> Result<Sequence<u32>, AllocError>
    requires { length numbers.now + 1 < 2 ^ 32 }
    ensures { IfOk result (λ now. now ≡ renumbered numbers.now set.now) }
{
    let mut now = Vec::new(alloc);
    for i in 0..numbers.len() {
        if has_number(set, numbers[i]) {
            now.push(i as u32 + 1)?;
        }
    }
    Ok(Sequence::from_vec(now))
}

/// Sets by the numbers that positions have now.
pub(crate) fn all_renumbered(
    alloc: Global,
    numbers: &[u32],
    sets: &[Sequence<u32>],
) -> Result<Sequence<Sequence<u32>>, AllocError>
    requires { length numbers.now + 1 < 2 ^ 32 }
    ensures { IfOk result (λ now. now ≡ map (renumbered numbers.now) sets.now) }
{
    let mut now = Sequence::new(alloc);
    for set in sets {
        let next = renumbered(alloc, numbers, set.as_slice())?;
        now.push(next)?;
    }
    Ok(now)
}

/// Whether two sets have the same numbers.
pub(crate) fn is_same_set(a: &[u32], b: &[u32]) -> bool
    ensures { result ≡ is_same_set a.now b.now }
{
    is_part(a, b) && is_part(b, a)
}
