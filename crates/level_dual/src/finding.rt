//! The mappings of a component.

ghost use Rattle.std.specs.Prelude.{◌≡◌, ◌<◌, ◌^◌, ◌+◌, ◌∷◌, [], ◌↔◌, ℕ, ℤ, Bool, List, IfOk, IsTrue, None, Some, length, map, slice_get, true};
ghost use Rattle.std.specs.List.{AllByRecursion};
ghost use Rattle.call_components.specs.Numbers.{number_of};
ghost use Rattle.call_components.specs.Partition.{AreComponents, Partition};
ghost use Rattle.component_clauses.specs.Numbered.{HasItsClauses};
ghost use Rattle.cti_terms.specs.Tree.{Tree};
ghost use Rattle.level_dual.specs.Cases.{undecided};
ghost use Rattle.level_systems.specs.Found.{IsFound, count};
ghost use Rattle.level_systems.specs.Held.{IsHeld};
ghost use Rattle.level_systems.specs.Searched.{IsComponent, IsSound};
ghost use Rattle.linear_rows.specs.Step.{columns};
ghost use Rattle.termination_model.specs.sizes.Sizes.{AreSizes, rows_of};
ghost use Rattle.termination_model.specs.mappings.ComponentViews.{HasSupportIn};

use crate::large::find_large;
use crate::refuting::refutation;
use crate::searching::search;
use crate::small::find_small;
use call_components::Components;
use component_clauses::{ComponentClauses, own_clauses};
use cti_terms::Program;
use level_systems::{Answer, Component, Found, Position, collect, component_positions};
use sequences::Sequence;
use std::alloc::{AllocError, Global};
use term_size::Norm;
use termination_model::Sizes;

/// The most positions of a component all of whose supports are looked at.
const MOST_POSITIONS: usize = 12;

/// Whether there are more positions than are looked at in all supports.
pub fn is_large(positions: &[Position]) -> bool
    ensures { IsTrue result ↔ (12 < length positions.now) }
{
    positions.len() > MOST_POSITIONS
}

/// How many positions there are.
pub fn count_of(positions: &[Position]) -> usize
    ensures { result ≡ length positions.now }
{
    positions.len()
}

/// The numbers of the given number of positions, from 1 on. 2^32 and more have no memory.
pub fn all_numbers(alloc: Global, count: usize) -> Result<Sequence<u32>, AllocError>
    ensures numbers { IfOk result (λ numbers. numbers ≡ columns 1 count) }
    ensures few { IfOk result (λ numbers. count + 1 < 2 ^ 32) }
{
    let last = match u32::try_from(count) {
        Ok(last) => last,
        Err(_) => return Err(AllocError),
    };
    if last == u32::MAX {
        return Err(AllocError);
    }
    let mut numbers = Vec::new(alloc);
    for number in 0..last {
        numbers.push(number + 1)?;
    }
    Ok(Sequence::from_vec(numbers))
}

/// A list of one set.
pub fn one_set(alloc: Global, set: Sequence<u32>) -> Result<Sequence<Sequence<u32>>, AllocError>
    ensures { IfOk result (λ sets. sets ≡ set ∷ []) }
{
    let mut sets = Sequence::new(alloc);
    sets.push(set)?;
    Ok(sets)
}

/// What is found where nothing can be decided: the empty set and that of all positions stand for all.
fn nothing_decided(alloc: Global, full: Sequence<u32>, large: bool) -> Result<Found, AllocError>
    ensures { IfOk result (λ f. f
        ≡ record { mappings = []; refutation = None; blown = undecided full; large = large }) }
{
    let mut blown = one_set(alloc, Sequence::new(alloc))?;
    if !full.is_empty() {
        blown.push(full)?;
    }
    Ok(Found {
        mappings: Sequence::new(alloc),
        refutation: None,
        blown,
        large,
    })
}

/// What is found where the search at the set of all positions was given up.
fn all_given_up(alloc: Global, full: Sequence<u32>, large: bool) -> Result<Found, AllocError>
    ensures { IfOk result (λ f. f
        ≡ record { mappings = []; refutation = None; blown = full ∷ []; large = large }) }
{
    Ok(Found {
        mappings: Sequence::new(alloc),
        refutation: None,
        blown: one_set(alloc, full)?,
        large,
    })
}

/// What is found where no mapping decreases.
fn none_decreases<N: Norm>(
    alloc: Global,
    p: &Program,
    norm: &N,
    sizes: &Sizes,
    component: &Component,
    full: Sequence<u32>,
    large: bool,
) -> Result<Found, AllocError>
    requires sound { IsSound p.now component.now }
    requires sizes { AreSizes p.now.preds sizes.now.rows }
    requires held { AllByRecursion
        (IsHeld (N.expression norm.now) p.now (rows_of sizes.now.rows)) component.now.calls.items }
    requires full { full ≡ columns 1 (length component.now.positions.items) }
    ensures { IfOk result (λ f. (comps : Partition) (c : ℕ)
        → IsComponent (N.size norm.now) (N.truth norm.now) (N.expression norm.now) p.now comps
        (rows_of sizes.now.rows) c component.now
        → IsTrue large ↔ (12 < count (N.expression norm.now) p.now comps (rows_of sizes.now.rows) c)
        → ((s : List ℕ) → HasSupportIn (N.expression norm.now) p.now comps
        (rows_of sizes.now.rows) c s → ⊥)
        → IsFound (N.expression norm.now) p.now comps (rows_of sizes.now.rows) c f) }
{
    match refutation(alloc, p, norm, sizes, component)? {
        Some(refutation) => Ok(Found {
            mappings: Sequence::new(alloc),
            refutation: Some(refutation),
            blown: Sequence::new(alloc),
            large,
        }),
        None => all_given_up(alloc, full, large),
    }
}

/// What is found in a component none of whose calls is given up.
fn find<N: Norm>(
    alloc: Global,
    p: &Program,
    norm: &N,
    sizes: &Sizes,
    component: &Component,
    full: Sequence<u32>,
    large: bool,
) -> Result<Found, AllocError>
    requires sound { IsSound p.now component.now }
    requires sizes { AreSizes p.now.preds sizes.now.rows }
    requires held { AllByRecursion
        (IsHeld (N.expression norm.now) p.now (rows_of sizes.now.rows)) component.now.calls.items }
    requires full { full ≡ columns 1 (length component.now.positions.items) }
    requires few { length component.now.positions.items + 1 < 2 ^ 32 }
    ensures { IfOk result (λ f. (comps : Partition) (c : ℕ)
        → IsComponent (N.size norm.now) (N.truth norm.now) (N.expression norm.now) p.now comps
        (rows_of sizes.now.rows) c component.now
        → IsTrue large ↔ (12 < count (N.expression norm.now) p.now comps (rows_of sizes.now.rows) c)
        → IsFound (N.expression norm.now) p.now comps (rows_of sizes.now.rows) c f) }
{
    match search(alloc, p, component, full.as_slice())? {
        Answer::Refuted => none_decreases(alloc, p, norm, sizes, component, full, large),
        Answer::Mapping(mapping) => {
            if large {
                return find_large(alloc, p, component, mapping);
            }
            find_small(alloc, p, component, full, false)
        }
        Answer::Blown => {
            if large {
                return all_given_up(alloc, full, large);
            }
            find_small(alloc, p, component, full, true)
        }
    }
}

/// The mappings of a component that decrease, or why there are none.
///
/// The component is recursive. Size rows say what is known of the sizes of a predicate's arguments. Of at most 12
/// argument positions all supports are looked at, the smaller ones first, and each minimal support is given with its
/// mapping and its falls. Of more positions at most one mapping is given, none of whose positions can be left out.
/// Supports whose systems are blown are named. A refutation is there where no mapping decreases, unless the set of all
/// positions is named as blown. The falls and the refutation are tested as the check of a certificate tests them.
///
/// Source: level mappings by duality, as in Sohn and Van Gelder 1991, and minimal supports as in Mesnard and Neumerkel
/// 2001.
pub fn component_mappings<N: Norm>(
    alloc: Global,
    own: &ComponentClauses<'_>,
    norm: &N,
    sizes: &Sizes,
) -> Result<Found, AllocError>
    requires clauses { HasItsClauses own.now }
    requires recursive { slice_get own.now.comps.now.recursive own.now.number ≡ Some true }
    requires sizes { AreSizes own.now.program.now.preds sizes.now.rows }
    ensures { IfOk result (IsFound (N.expression norm.now) own.now.program.now own.now.comps.now
        (rows_of sizes.now.rows) own.now.number) }
{
    let positions = component_positions(alloc, own.program, own.comps, own.number)?;
    let large = is_large(positions.as_slice());
    let full = all_numbers(alloc, count_of(positions.as_slice()))?;
    let Some(component) = collect(alloc, own, norm, sizes, positions)? else {
        return nothing_decided(alloc, full, large);
    };
    let found = find(alloc, own.program, norm, sizes, &component, full, large)?;
    Ok(found)
}

/// The mappings of a component that decrease, or why there are none, as `component_mappings` finds them.
///
/// The component's clauses are looked for first, which takes the time of the program.
pub fn mappings<N: Norm>(
    alloc: Global,
    p: &Program,
    comps: &Components,
    c: u32,
    norm: &N,
    sizes: &Sizes,
) -> Result<Found, AllocError>
    requires components { AreComponents p.now comps.now }
    requires inner { c < length comps.now.members }
    requires recursive { slice_get comps.now.recursive c ≡ Some true }
    requires sizes { AreSizes p.now.preds sizes.now.rows }
    ensures { IfOk result (IsFound (N.expression norm.now) p.now comps.now
        (rows_of sizes.now.rows) c) }
{
    let own = own_clauses(alloc, p, comps)?;
    let component = ComponentClauses {
        program: p,
        comps,
        number: c,
        clauses: own[c as usize].as_slice(),
    };
    component_mappings(alloc, &component, norm, sizes)
}
