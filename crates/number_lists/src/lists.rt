//! The search for lists.

ghost use Rattle.std.specs.Prelude.{ℕ, IfOk, map};
ghost use Rattle.std.specs.List.{AllByRecursion};
ghost use Rattle.number_lists.specs.Features.{AreTransitions};
ghost use Rattle.number_lists.specs.FoundLists.{AreFoundLists};
ghost use Rattle.number_turns.specs.Recalled.{HasNumbers, recalled};

use crate::deciding::find;
use crate::found_lists::FoundLists;
use crate::position::Position;
use crate::system::System;
use level_dual::all_numbers;
use number_turns::Transition;
use std::alloc::{AllocError, Global};

/// The lists of mappings with numbers that descend over transitions, or why there are none.
///
/// A mapping has a number for each column of the positions, and an offset for each member. Of at most 12 positions all
/// supports are looked at, the smaller ones first, and each minimal support is given with one list; a list of one
/// mapping, where one decreases with this support. Of more positions at most one list is given, none of whose positions
/// other lists can leave out. Supports whose search is given up are named. A stuck set is there where no list descends,
/// unless the set of all positions is named as given up. 2^32 positions and more are out of memory.
///
/// Source: Podelski and Rybalchenko 2004; Bradley, Manna and Sipma 2005; lexicographic ranking by linear programs, as
/// in Alias, Darte, Feautrier and Gonnord 2010.
pub fn search(
    alloc: Global,
    members: &[u32],
    positions: &[Position],
    transitions: &[Transition],
) -> Result<FoundLists, AllocError>
    // The numbers of the rows fit, and those of the columns are natural: `has_numbers` tests this.
    requires { AllByRecursion HasNumbers (map recalled transitions.now) }
    ensures { IfOk result (λ found. (width : ℕ → ℕ)
        → AreTransitions width members.now positions.now (map recalled transitions.now)
        → AreFoundLists members.now positions.now (map recalled transitions.now) width found) }
{
    let full = all_numbers(alloc, positions.len())?;
    let system = System {
        members,
        positions,
        transitions,
    };
    find(alloc, &system, full)
}
