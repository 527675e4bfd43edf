//! All sets of numbers up to a number, and whether a set is part of another.

ghost use Rattle.std.specs.Prelude.{◌≡◌, ◌<◌, ◌+◌, ◌++◌, ◌∷◌, [], ◌^◌, IfOk, OnOk, map};
ghost use Rattle.termination_model.specs.grounds.Modes.{chosen, chosen_up_to, is_part};

use sequences::Sequence;
use std::alloc::{AllocError, Global};

/// Adds the numbers as one more set.
fn add_set(
    alloc: Global,
    sets: &mut Sequence<Sequence<u32>>,
    numbers: &[u32],
) -> Result<(), AllocError>
    ensures { OnOk result (sets.new ≡ sets.old ++ numbers.now ∷ []) }
{
    let items = Vec::from_slice(alloc, numbers)?;
    sets.push(Sequence::from_vec(items))
}

/// Adds the numbers with each ascending list of `count` of the `room` numbers from `from` on.
fn add_chosen(
    alloc: Global,
    sets: &mut Sequence<Sequence<u32>>,
    numbers: &mut Vec<u32>,
    count: u32,
    from: u32,
    room: u32,
) -> Result<(), AllocError>
    requires small { from + room < 2 ^ 32 }
    ensures sets { OnOk result (sets.new ≡ sets.old ++ map (λ args. numbers.old.items ++ args)
        (chosen count from room)) }
    ensures same { OnOk result (numbers.new.items ≡ numbers.old.items) }
{
    if count == 0 {
        return add_set(alloc, sets, numbers.as_slice());
    }
    if room == 0 {
        return Ok(());
    }
    let length = numbers.as_slice().len();
    numbers.push(from)?;
    add_chosen(alloc, sets, numbers, count - 1, from + 1, room - 1)?;
    numbers.truncate(length);
    add_chosen(alloc, sets, numbers, count, from + 1, room - 1)
}

/// All sets of numbers from 1 to a number, each as an ascending list.
///
/// Sets of fewer numbers come first, and those of equal length in lexicographic order.
pub fn number_sets(alloc: Global, last: u32) -> Result<Sequence<Sequence<u32>>, AllocError>
    requires small { last + 1 < 2 ^ 32 }
    ensures { IfOk result (λ sets. sets ≡ chosen_up_to last last) }
{
    let mut sets = Sequence::new(alloc);
    let mut numbers = Vec::new(alloc);
    for count in 0..last + 1 {
        add_chosen(alloc, &mut sets, &mut numbers, count, 1, last)?;
    }
    Ok(sets)
}

/// Whether each number of the first list is in the second.
pub fn is_part(xs: &[u32], ys: &[u32]) -> bool
    ensures { result ≡ is_part xs.now ys.now }
{
    for x in xs {
        if !ys.contains(x) {
            return false;
        }
    }
    true
}
