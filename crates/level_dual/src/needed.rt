//! Positions at which each decreasing mapping has a positive coefficient.
//!
//! Where a mapping has no other positions, its support is the only minimal one, and the sets of positions, of which
//! there are 4,096 of twelve, need not be gone over.

ghost use Rattle.std.specs.Prelude.{◌<◌, ◌^◌, IfOk, IfSome, length};
ghost use Rattle.level_systems.specs.Searched.{IsSound};
ghost use Rattle.level_dual.specs.Components.{ForComponent};
ghost use Rattle.level_dual.specs.Needed.{AreNeeded, IsOnly};
ghost use Rattle.level_dual.specs.Walked.{IsAllWalked};
ghost use Rattle.linear_rows.specs.Step.{columns};

use crate::large::{support_of, without_number};
use crate::searching::search;
use crate::walked::Walked;
use cti_terms::Program;
use level_systems::{Answer, Component, Mapping};
use sequences::Sequence;
use std::alloc::{AllocError, Global};

/// How many positions there are at least where needed ones are looked for. The sets of fewer are soon gone over.
const MANY_POSITIONS: usize = 7;

/// The positions of a set, one by one, without which no mapping decreases. None are looked for in a small set.
pub(crate) fn needed_positions(
    alloc: Global,
    p: &Program,
    component: &Component,
    full: &[u32],
) -> Result<Vec<u32>, AllocError>
    requires { IsSound p.now component.now }
    ensures { IfOk result (λ needed. ForComponent p.now component.now (λ expression comps rows c.
        AreNeeded expression p.now comps rows c full.now needed.items)) }
{
    let mut needed = Vec::new(alloc);
    if full.len() < MANY_POSITIONS {
        return Ok(needed);
    }
    for number in full {
        let set = without_number(alloc, full, *number)?;
        match search(alloc, p, component, set.as_slice())? {
            Answer::Refuted => needed.push(*number)?,
            Answer::Mapping(_) => {}
            Answer::Blown => {}
        }
    }
    Ok(needed)
}

/// What a walk finds where this is the only mapping with a minimal support.
fn walked_with(alloc: Global, component: &Component, mapping: Mapping) -> Result<Walked, AllocError>
    requires { length component.now.positions.items < 2 ^ 32 }
    ensures { IfOk result (IsOnly component.now mapping) }
{
    let support = support_of(alloc, component.positions.as_slice(), &mapping)?;
    let mut found = Sequence::new(alloc);
    found.push(Sequence::from_vec(support))?;
    let mut mappings = Sequence::new(alloc);
    mappings.push(mapping)?;
    Ok(Walked {
        found,
        mappings,
        blown: Sequence::new(alloc),
    })
}

/// What a walk finds, where a mapping has only positions that are needed.
pub(crate) fn walk_needed(
    alloc: Global,
    p: &Program,
    component: &Component,
    needed: &[u32],
) -> Result<Option<Walked>, AllocError>
    requires sound { IsSound p.now component.now }
    requires small { length component.now.positions.items < 2 ^ 32 }
    ensures { IfOk result (λ o. IfSome o (λ walked.
        ForComponent p.now component.now (λ expression comps rows c.
        AreNeeded expression p.now comps rows c
        (columns 1 (length component.now.positions.items)) needed.now
        → IsAllWalked expression p.now comps rows c walked))) }
{
    if needed.is_empty() {
        return Ok(None);
    }
    match search(alloc, p, component, needed)? {
        Answer::Mapping(mapping) => Ok(Some(walked_with(alloc, component, mapping)?)),
        Answer::Refuted => Ok(None),
        Answer::Blown => Ok(None),
    }
}
