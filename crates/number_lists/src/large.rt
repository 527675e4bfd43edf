//! Many positions: one list, none of whose positions other lists can leave out.

ghost use Rattle.std.specs.Prelude.{◌≡◌, ◌↔◌, ◌<◌, ◌^◌, IfOk, IsTrue, length, map, true};
ghost use Rattle.std.specs.List.{AllByRecursion};
ghost use Rattle.level_systems.specs.Subsequences.{AreOnce};
ghost use Rattle.number_lists.specs.FoundLists.{AreFoundLists};
ghost use Rattle.number_lists.specs.Large.{IsHadList, IsLeftOut, IsShorterThan};
ghost use Rattle.number_lists.specs.Systems.{ForSystem};
ghost use Rattle.number_turns.specs.Recalled.{HasNumbers, recalled};

use crate::course::Within;
use crate::found_lists::FoundLists;
use crate::measure_list::MeasureList;
use crate::searching::find_at;
use crate::supports::support_of;
use crate::system::System;
use level_dual::without_number;
use sequences::Sequence;
use std::alloc::{AllocError, Global};

/// What is found of the supports without one position.
#[derive(Drop)]
pub(crate) enum LeftOut {
    /// A list of smaller support.
    Smaller(MeasureList),
    /// No list, unless at one of these sets, which were given up.
    None(Sequence<Sequence<u32>>),
}

/// Searches at a support without one position after another, up to a list of smaller support.
fn leave_out(alloc: Global, system: &System<'_>, support: &[u32]) -> Result<LeftOut, AllocError>
    requires numbers { AllByRecursion HasNumbers (map recalled system.now.transitions.now) }
    requires small { length system.now.positions.now < 2 ^ 32 }
    ensures shorter { IfOk result (IsShorterThan system.now.positions.now (length support.now)) }
    ensures left_out { IfOk result (λ out. ForSystem system.now (λ members positions τs width.
        AreOnce support.now → IsLeftOut members positions τs width support.now out)) }
{
    let mut blown = Sequence::new(alloc);
    for number in support {
        let set = without_number(alloc, support, *number)?;
        match find_at(alloc, system, set.as_slice())? {
            Within::List(other) => {
                // The support of a list at this set is smaller. It is tested, since the caller's loop ends by that.
                let smaller = support_of(alloc, system.positions, &other)?;
                if smaller.len() < support.len() {
                    return Ok(LeftOut::Smaller(other));
                }
                blown.push(set)?;
            }
            Within::Nothing(_) => {}
            Within::GivenUp => blown.push(set)?,
        }
    }
    Ok(LeftOut::None(blown))
}

/// A list none of whose positions can be left out, from one whose positions perhaps can.
pub(crate) fn find_large(
    alloc: Global,
    system: &System<'_>,
    list: MeasureList,
) -> Result<FoundLists, AllocError>
    requires numbers { AllByRecursion HasNumbers (map recalled system.now.transitions.now) }
    requires small { length system.now.positions.now < 2 ^ 32 }
    ensures { IfOk result (λ f. ForSystem system.now (λ members positions τs width.
        IsTrue true ↔ (12 < length positions)
        → IsHadList members positions τs width list
        → AreFoundLists members positions τs width f)) }
{
    let mut list = list;
    loop {
        let support = support_of(alloc, system.positions, &list)?;
        match leave_out(alloc, system, support.as_slice())? {
            LeftOut::Smaller(smaller) => list = smaller,
            LeftOut::None(blown) => {
                let mut lists = Sequence::new(alloc);
                lists.push(list)?;
                return Ok(FoundLists {
                    lists,
                    stuck: None,
                    blown,
                    large: true,
                });
            }
        }
    }
}
