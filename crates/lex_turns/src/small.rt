//! Components of few positions: a list for each minimal support.

ghost use Rattle.std.specs.Prelude.{◌≡◌, ◌↔◌, ◌<◌, ◌^◌, ◌+◌, ℕ, List, IfOk, IsTrue, false, length, true};
ghost use Rattle.level_dual.specs.Components.{ForComponent};
ghost use Rattle.level_systems.specs.Found.{count};
ghost use Rattle.level_systems.specs.Searched.{IsSound};
ghost use Rattle.lex_turns.specs.FoundLists.{AreFoundLists, HasList, MayBeMissing};
ghost use Rattle.linear_rows.specs.Step.{columns};

use crate::found_lists::FoundLists;
use crate::walked::Walked;
use crate::walking::walk;
use cti_terms::Program;
use level_dual::with_full;
use level_systems::Component;
use sequences::Sequence;
use std::alloc::{AllocError, Global};

/// The lists with minimal supports. Where the search at all positions was given up, and no list is found, the set of
/// all positions is among the sets that were given up.
pub(crate) fn find_small(
    alloc: Global,
    p: &Program,
    component: &Component,
    full: Sequence<u32>,
    given_up: bool,
) -> Result<FoundLists, AllocError>
    requires sound { IsSound p.now component.now }
    requires full { full ≡ columns 1 (length component.now.positions.items) }
    requires small { length component.now.positions.items + 1 < 2 ^ 32 }
    ensures { IfOk result (λ f. ForComponent p.now component.now (λ expression comps rows c.
        IsTrue false ↔ (12 < count expression p.now comps rows c) → (given_up ≡ true
        → MayBeMissing expression p.now comps rows c full)
        → (given_up ≡ false → ((s : List ℕ) → HasList expression p.now comps rows c s → ⊥) → ⊥)
        → AreFoundLists expression p.now comps rows c f)) }
{
    let last = component.positions.len() as u32;
    let walked = walk(alloc, p, component, full.as_slice(), last)?;
    let none = walked.lists.is_empty();
    let Walked {
        found: _,
        lists,
        blown,
    } = walked;
    let blown = with_full(alloc, blown, full, given_up, none)?;
    Ok(FoundLists {
        lists,
        refutation: None,
        blown,
        large: false,
    })
}
