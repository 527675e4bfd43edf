//! What is found of a component's lists, by what the search at all positions answers.

ghost use Rattle.std.specs.Prelude.{◌≡◌, ◌<◌, ◌^◌, ◌+◌, [], ℕ, List, IfOk, None, length, map};
ghost use Rattle.std.specs.List.{AllByRecursion};
ghost use Rattle.call_components.specs.Partition.{Partition};
ghost use Rattle.level_dual.specs.Cases.{undecided};
ghost use Rattle.level_dual.specs.Components.{ForComponent};
ghost use Rattle.level_systems.specs.Held.{IsHeld};
ghost use Rattle.level_systems.specs.Searched.{IsComponent, IsFoundIn, IsSound};
ghost use Rattle.lex_turns.specs.Deciding.{IsNotFound};
ghost use Rattle.lex_turns.specs.Found.{IsListIn};
ghost use Rattle.lex_turns.specs.FoundLists.{AreFoundLists, IsGivenUpAt, IsUnmapped};
ghost use Rattle.linear_rows.specs.Step.{columns};
ghost use Rattle.termination_model.specs.sizes.Sizes.{AreSizes, rows_of};

use crate::course::Ended;
use crate::found_lists::FoundLists;
use crate::large::find_large;
use crate::measure_list::MeasureList;
use crate::searching::take_turns;
use crate::single::list_of_one;
use crate::small::find_small;
use crate::stuck::{Halt, stuck_set};
use cti_terms::Program;
use level_dual::{is_large, one_set, positions_at};
use level_systems::{Answer, Component, Mapping};
use number_tests::Refutation;
use sequences::Sequence;
use std::alloc::{AllocError, Global};
use term_size::Norm;
use termination_model::Sizes;

/// What is found where nothing can be decided: the empty set and that of all positions stand for all.
pub(crate) fn nothing_decided(
    alloc: Global,
    full: Sequence<u32>,
    large: bool,
) -> Result<FoundLists, AllocError>
    ensures { IfOk result (λ f. f
        ≡ record { lists = []; refutation = None; blown = undecided full; large = large }) }
{
    let mut blown = one_set(alloc, Sequence::new(alloc))?;
    if !full.is_empty() {
        blown.push(full)?;
    }
    Ok(FoundLists {
        lists: Sequence::new(alloc),
        refutation: None,
        blown,
        large,
    })
}

/// What is found where no list descends: a stuck set, or the set of all positions as given up.
fn not_found(
    alloc: Global,
    full: Sequence<u32>,
    large: bool,
    stuck: Option<Refutation>,
) -> Result<FoundLists, AllocError>
    ensures { IfOk result (IsNotFound full large stuck) }
{
    let lists = Sequence::new(alloc);
    let blown = match &stuck {
        Some(_) => Sequence::new(alloc),
        None => one_set(alloc, full)?,
    };
    Ok(FoundLists {
        lists,
        refutation: stuck,
        blown,
        large,
    })
}

/// What is found in a large component where a mapping decreases. Positions are left out as long as another mapping
/// decreases, and then as long as a list descends.
fn of_large_mapping(
    alloc: Global,
    p: &Program,
    component: &Component,
    mapping: Mapping,
) -> Result<FoundLists, AllocError>
    requires sound { IsSound p.now component.now }
    requires few { length component.now.positions.items < 2 ^ 32 }
    ensures { IfOk result (λ f. ForComponent p.now component.now
        (λ expression comps rows c. (s : List ℕ)
        → 12 < length component.now.positions.items
        → IsFoundIn expression p.now comps rows c s mapping
        → AreFoundLists expression p.now comps rows c f)) }
{
    let found = level_dual::find_large(alloc, p, component, mapping)?;
    let list = list_of_one(alloc, &found.mappings.as_slice()[0])?;
    find_large(alloc, p, component, list)
}

/// What is found where a mapping decreases.
fn of_mapping(
    alloc: Global,
    p: &Program,
    component: &Component,
    full: Sequence<u32>,
    mapping: Mapping,
) -> Result<FoundLists, AllocError>
    requires sound { IsSound p.now component.now }
    requires full { full ≡ columns 1 (length component.now.positions.items) }
    requires few { length component.now.positions.items + 1 < 2 ^ 32 }
    ensures { IfOk result (λ f. ForComponent p.now component.now (λ expression comps rows c.
        IsFoundIn expression p.now comps rows c full mapping
        → AreFoundLists expression p.now comps rows c f)) }
{
    if is_large(component.positions.as_slice()) {
        return of_large_mapping(alloc, p, component, mapping);
    }
    find_small(alloc, p, component, full, false)
}

/// What is found where turns at all positions give a list.
fn of_list(
    alloc: Global,
    p: &Program,
    component: &Component,
    full: Sequence<u32>,
    list: MeasureList,
) -> Result<FoundLists, AllocError>
    requires sound { IsSound p.now component.now }
    requires full { full ≡ columns 1 (length component.now.positions.items) }
    requires few { length component.now.positions.items + 1 < 2 ^ 32 }
    ensures { IfOk result (λ f. ForComponent p.now component.now (λ expression comps rows c.
        IsUnmapped expression p.now comps rows c full
        → IsListIn expression p.now comps rows c full list
        → AreFoundLists expression p.now comps rows c f)) }
{
    if is_large(component.positions.as_slice()) {
        return find_large(alloc, p, component, list);
    }
    find_small(alloc, p, component, full, false)
}

/// What is found where the search at all positions is given up.
fn of_given_up(
    alloc: Global,
    p: &Program,
    component: &Component,
    full: Sequence<u32>,
) -> Result<FoundLists, AllocError>
    requires sound { IsSound p.now component.now }
    requires full { full ≡ columns 1 (length component.now.positions.items) }
    requires few { length component.now.positions.items + 1 < 2 ^ 32 }
    ensures { IfOk result (λ f. ForComponent p.now component.now (λ expression comps rows c.
        IsUnmapped expression p.now comps rows c full
        → IsGivenUpAt expression p.now comps rows c full
        → AreFoundLists expression p.now comps rows c f)) }
{
    if is_large(component.positions.as_slice()) {
        return not_found(alloc, full, true, None);
    }
    find_small(alloc, p, component, full, true)
}

/// What is found by turns at all positions, where no mapping is found.
fn by_turns<N: Norm>(
    alloc: Global,
    p: &Program,
    norm: &N,
    sizes: &Sizes,
    component: &Component,
    full: Sequence<u32>,
) -> Result<FoundLists, AllocError>
    requires sound { IsSound p.now component.now }
    requires sizes { AreSizes p.now.preds sizes.now.rows }
    requires held { AllByRecursion (IsHeld (N.expression norm.now) p.now
        (rows_of sizes.now.rows)) component.now.calls.items }
    requires full { full ≡ columns 1 (length component.now.positions.items) }
    requires few { length component.now.positions.items + 1 < 2 ^ 32 }
    ensures { IfOk result (λ f. (comps : Partition) (c : ℕ)
        → IsComponent (N.size norm.now) (N.truth norm.now) (N.expression norm.now) p.now comps
        (rows_of sizes.now.rows) c component.now
        → IsUnmapped (N.expression norm.now) p.now comps (rows_of sizes.now.rows) c full
        → AreFoundLists (N.expression norm.now) p.now comps (rows_of sizes.now.rows) c f) }
{
    let at = positions_at(alloc, component, full.as_slice())?;
    match take_turns(alloc, p, component, at.as_slice())? {
        Ended::List(list) => of_list(alloc, p, component, full, list),
        Ended::Refuted(gone) => {
            let halt = Halt {
                at: at.as_slice(),
                gone: gone.as_slice(),
            };
            let stuck = stuck_set(alloc, p, norm, sizes, component, &halt)?;
            let large = is_large(component.positions.as_slice());
            not_found(alloc, full, large, stuck)
        }
        Ended::GivenUp => of_given_up(alloc, p, component, full),
    }
}

/// What is found in a component none of whose calls is given up.
pub(crate) fn find<N: Norm>(
    alloc: Global,
    p: &Program,
    norm: &N,
    sizes: &Sizes,
    component: &Component,
    full: Sequence<u32>,
) -> Result<FoundLists, AllocError>
    requires sound { IsSound p.now component.now }
    requires sizes { AreSizes p.now.preds sizes.now.rows }
    requires held { AllByRecursion (IsHeld (N.expression norm.now) p.now
        (rows_of sizes.now.rows)) component.now.calls.items }
    requires full { full ≡ columns 1 (length component.now.positions.items) }
    requires few { length component.now.positions.items + 1 < 2 ^ 32 }
    ensures { IfOk result (λ f. (comps : Partition) (c : ℕ)
        → IsComponent (N.size norm.now) (N.truth norm.now) (N.expression norm.now) p.now comps
        (rows_of sizes.now.rows) c component.now
        → AreFoundLists (N.expression norm.now) p.now comps (rows_of sizes.now.rows) c f) }
{
    match level_dual::search(alloc, p, component, full.as_slice())? {
        Answer::Mapping(mapping) => of_mapping(alloc, p, component, full, mapping),
        Answer::Refuted => by_turns(alloc, p, norm, sizes, component, full),
        Answer::Blown => by_turns(alloc, p, norm, sizes, component, full),
    }
}
