//! Components of few positions: all minimal supports.

ghost use Rattle.std.specs.Prelude.{◌≡◌, ◌↔◌, ◌<◌, ◌^◌, ◌+◌, ℕ, List, IfOk, IsTrue, false, length, true};
ghost use Rattle.std.specs.List.{list_any};
ghost use Rattle.level_systems.specs.Found.{IsBlownSet, IsFound, count};
ghost use Rattle.level_systems.specs.Searched.{IsSound};
ghost use Rattle.level_dual.specs.Components.{ForComponent};
ghost use Rattle.level_dual.specs.Walked.{IsCompleted};
ghost use Rattle.linear_rows.specs.Step.{columns};
ghost use Rattle.termination_model.specs.grounds.Modes.{is_part};
ghost use Rattle.termination_model.specs.mappings.ComponentViews.{HasSupportIn};

use crate::walked::Walked;
use crate::walking::walk;
use cti_terms::Program;
use level_systems::{Component, Found};
use sequences::Sequence;
use std::alloc::{AllocError, Global};
use termination_model::is_part;

/// Whether some set has all numbers of a set.
pub fn is_below(sets: &[Sequence<u32>], set: &[u32]) -> bool
    ensures { result ≡ list_any (λ t. is_part set.now t) sets.now }
{
    for other in sets {
        if is_part(set, other.as_slice()) {
            return true;
        }
    }
    false
}

/// The sets that were given up, and that of all positions, where this was given up and nothing was found, unless one of
/// the sets is that.
pub fn with_full(
    alloc: Global,
    blown: Sequence<Sequence<u32>>,
    full: Sequence<u32>,
    given_up: bool,
    none: bool,
) -> Result<Sequence<Sequence<u32>>, AllocError>
    ensures { IfOk result (IsCompleted given_up none full blown) }
{
    if !given_up {
        return Ok(blown);
    }
    if !none {
        return Ok(blown);
    }
    if is_below(blown.as_slice(), full.as_slice()) {
        return Ok(blown);
    }
    let mut sets = blown;
    sets.push(full)?;
    Ok(sets)
}

/// The mappings with minimal supports. Where the set of all positions was given up, and no mapping is found, it is
/// among the sets that were given up.
pub(crate) fn find_small(
    alloc: Global,
    p: &Program,
    component: &Component,
    full: Sequence<u32>,
    given_up: bool,
) -> Result<Found, AllocError>
    requires sound { IsSound p.now component.now }
    requires full { full ≡ columns 1 (length component.now.positions.items) }
    requires small { length component.now.positions.items + 1 < 2 ^ 32 }
    ensures { IfOk result (λ f. ForComponent p.now component.now (λ expression comps rows c.
        IsTrue false ↔ (12 < count expression p.now comps rows c)
        → (given_up ≡ true → IsBlownSet expression p.now comps rows c full)
        → (given_up ≡ false → ((s : List ℕ) → HasSupportIn expression p.now comps rows c s → ⊥) → ⊥)
        → IsFound expression p.now comps rows c f)) }
{
    let walked = walk(alloc, p, component, full.as_slice())?;
    let none = walked.mappings.is_empty();
    let Walked {
        found: _,
        mappings,
        blown,
    } = walked;
    let blown = with_full(alloc, blown, full, given_up, none)?;
    Ok(Found {
        mappings,
        refutation: None,
        blown,
        large: false,
    })
}
