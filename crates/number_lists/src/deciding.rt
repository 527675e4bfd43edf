//! What is found of lists, by what the search at all positions answers.

ghost use Rattle.std.specs.Prelude.{◌≡◌, ◌↔◌, ◌<◌, ◌^◌, ◌+◌, [], ℕ, List, None, Some, IfOk, IsTrue, false, length, map, true};
ghost use Rattle.std.specs.List.{AllByRecursion};
ghost use Rattle.linear_rows.specs.Step.{columns};
ghost use Rattle.number_lists.specs.Found.{IsListIn};
ghost use Rattle.number_lists.specs.FoundLists.{AreFoundLists, HasList, IsGivenUpAt, IsUnmapped, MayBeMissing};
ghost use Rattle.number_lists.specs.Lists.{IsLong};
ghost use Rattle.number_lists.specs.Systems.{ForSystem};
ghost use Rattle.number_turns.specs.Recalled.{HasNumbers, recalled};

use crate::course::Within;
use crate::found_lists::FoundLists;
use crate::group::Group;
use crate::large::find_large;
use crate::measure_list::MeasureList;
use crate::searching::find_at;
use crate::system::System;
use crate::walking::{Walked, walk};
use level_dual::{one_set, with_full};
use sequences::Sequence;
use std::alloc::{AllocError, Global};

/// The most positions all of whose supports are looked at.
const MOST_POSITIONS: usize = 12;

/// Whether there are more than 12 positions.
fn is_large(system: &System<'_>) -> bool
    ensures { IsTrue result ↔ (12 < length system.now.positions.now) }
{
    system.positions.len() > MOST_POSITIONS
}

/// The lists with minimal supports. Where the search at all positions was given up, and no list is found, the set of
/// all positions is among the sets that were given up.
fn find_small(
    alloc: Global,
    system: &System<'_>,
    full: Sequence<u32>,
    given_up: bool,
) -> Result<FoundLists, AllocError>
    requires numbers { AllByRecursion HasNumbers (map recalled system.now.transitions.now) }
    requires full { full ≡ columns 1 (length system.now.positions.now) }
    requires small { length system.now.positions.now + 1 < 2 ^ 32 }
    ensures { IfOk result (λ f. ForSystem system.now (λ members positions τs width.
        IsTrue false ↔ (12 < length positions)
        → (given_up ≡ true → MayBeMissing members positions τs full)
        → (given_up ≡ false → ((s : List ℕ) → HasList members positions τs s → ⊥) → ⊥)
        → AreFoundLists members positions τs width f)) }
{
    let last = system.positions.len() as u32;
    let walked = walk(alloc, system, full.as_slice(), last)?;
    let none = walked.lists.is_empty();
    let Walked {
        found: _,
        lists,
        blown,
    } = walked;
    let blown = with_full(alloc, blown, full, given_up, none)?;
    Ok(FoundLists {
        lists,
        stuck: None,
        blown,
        large: false,
    })
}

/// What is found where no list descends.
fn of_stuck(alloc: Global, groups: Sequence<Group>, large: bool) -> FoundLists
    ensures { result ≡ record { lists = []; stuck = Some groups; blown = []; large = large } }
{
    FoundLists {
        lists: Sequence::new(alloc),
        stuck: Some(groups),
        blown: Sequence::new(alloc),
        large,
    }
}

/// What is found where a list descends.
fn of_list(
    alloc: Global,
    system: &System<'_>,
    full: Sequence<u32>,
    list: MeasureList,
) -> Result<FoundLists, AllocError>
    requires numbers { AllByRecursion HasNumbers (map recalled system.now.transitions.now) }
    requires full { full ≡ columns 1 (length system.now.positions.now) }
    requires small { length system.now.positions.now + 1 < 2 ^ 32 }
    ensures { IfOk result (λ f. ForSystem system.now (λ members positions τs width.
        (IsLong list → IsUnmapped members positions τs full)
        → IsListIn members positions τs width full list
        → AreFoundLists members positions τs width f)) }
{
    if is_large(system) {
        return find_large(alloc, system, list);
    }
    find_small(alloc, system, full, false)
}

/// What is found where the search at all positions is given up.
fn of_given_up(
    alloc: Global,
    system: &System<'_>,
    full: Sequence<u32>,
) -> Result<FoundLists, AllocError>
    requires numbers { AllByRecursion HasNumbers (map recalled system.now.transitions.now) }
    requires full { full ≡ columns 1 (length system.now.positions.now) }
    requires small { length system.now.positions.now + 1 < 2 ^ 32 }
    ensures { IfOk result (λ f. ForSystem system.now (λ members positions τs width.
        MayBeMissing members positions τs full
        → AreFoundLists members positions τs width f)) }
{
    if is_large(system) {
        return Ok(FoundLists {
            lists: Sequence::new(alloc),
            stuck: None,
            blown: one_set(alloc, full)?,
            large: true,
        });
    }
    find_small(alloc, system, full, true)
}

/// What is found of the lists of transitions.
pub(crate) fn find(
    alloc: Global,
    system: &System<'_>,
    full: Sequence<u32>,
) -> Result<FoundLists, AllocError>
    requires numbers { AllByRecursion HasNumbers (map recalled system.now.transitions.now) }
    requires full { full ≡ columns 1 (length system.now.positions.now) }
    requires small { length system.now.positions.now + 1 < 2 ^ 32 }
    ensures { IfOk result (λ f. ForSystem system.now (λ members positions τs width.
        AreFoundLists members positions τs width f)) }
{
    match find_at(alloc, system, full.as_slice())? {
        Within::List(list) => of_list(alloc, system, full, list),
        Within::Nothing(groups) => {
            let large = is_large(system);
            Ok(of_stuck(alloc, groups, large))
        }
        Within::GivenUp => of_given_up(alloc, system, full),
    }
}
