//! The search for the lists of a component.

ghost use Rattle.std.specs.Prelude.{◌≡◌, IfOk, Some, slice_get, true};
ghost use Rattle.component_clauses.specs.Numbered.{HasItsClauses};
ghost use Rattle.lex_turns.specs.FoundLists.{AreFoundLists};
ghost use Rattle.termination_model.specs.sizes.Sizes.{AreSizes, rows_of};

use crate::deciding::{find, nothing_decided};
use crate::found_lists::FoundLists;
use component_clauses::ComponentClauses;
use level_dual::{all_numbers, count_of, is_large};
use level_systems::{collect, component_positions};
use std::alloc::{AllocError, Global};
use term_size::Norm;
use termination_model::Sizes;

/// The lists of mappings of a component that descend, or why there are none.
///
/// The component is recursive. Size rows say what is known of the sizes of a predicate's arguments. Of at most 12
/// argument positions all supports are looked at, the smaller ones first, and each minimal support is given with one
/// list; a list of one mapping, where one decreases with this support. Of more positions at most one list is given: one
/// mapping where one decreases, none of whose positions other mappings can leave out, and else a list, none of whose
/// positions other lists can leave out. Supports whose search is given up are named. A stuck set is there where no list
/// descends, unless the set of all positions is named as given up.
///
/// Source: lexicographic ranking by linear programs, as in Alias, Darte, Feautrier and Gonnord 2010.
pub fn search<N: Norm>(
    alloc: Global,
    own: &ComponentClauses<'_>,
    norm: &N,
    sizes: &Sizes,
) -> Result<FoundLists, AllocError>
    requires clauses { HasItsClauses own.now }
    requires recursive { slice_get own.now.comps.now.recursive own.now.number ≡ Some true }
    requires sizes { AreSizes own.now.program.now.preds sizes.now.rows }
    ensures { IfOk result (AreFoundLists (N.expression norm.now) own.now.program.now
        own.now.comps.now (rows_of sizes.now.rows) own.now.number) }
{
    let positions = component_positions(alloc, own.program, own.comps, own.number)?;
    let large = is_large(positions.as_slice());
    let full = all_numbers(alloc, count_of(positions.as_slice()))?;
    let Some(component) = collect(alloc, own, norm, sizes, positions)? else {
        return nothing_decided(alloc, full, large);
    };
    let found = find(alloc, own.program, norm, sizes, &component, full)?;
    Ok(found)
}
