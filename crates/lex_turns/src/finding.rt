//! The search at a set of positions.

ghost use Rattle.std.specs.Prelude.{IfOk};
ghost use Rattle.level_dual.specs.Components.{ForComponent};
ghost use Rattle.level_systems.specs.Searched.{IsSound};
ghost use Rattle.lex_turns.specs.Found.{IsChosen, IsWithin};

use crate::course::Ended;
use crate::searching::take_turns;
use crate::single::list_of_one;
use crate::within::Within;
use cti_terms::Program;
use level_dual::positions_at;
use level_systems::{Answer, Component};
use std::alloc::{AllocError, Global};

/// Searches by turns for a list of mappings that descends and whose coefficients are positive at a set of positions
/// alone. The numbers of positions count from 1.
///
/// In each turn a mapping is found that rises at none of the calls that remain, and those at which it falls leave. Its
/// drops are tested as the check of a certificate tests them. Where the numbers that pivots find do not fit,
/// elimination solves the turn's system again.
///
/// Source: lexicographic ranking by linear programs, as in Alias, Darte, Feautrier and Gonnord 2010.
pub(crate) fn search_within(
    alloc: Global,
    p: &Program,
    component: &Component,
    set: &[u32],
) -> Result<Within, AllocError>
    requires { IsSound p.now component.now }
    ensures { IfOk result (λ within. ForComponent p.now component.now (λ expression comps rows c.
        IsWithin expression p.now comps rows c set.now within)) }
{
    let at = positions_at(alloc, component, set)?;
    match take_turns(alloc, p, component, at.as_slice())? {
        Ended::List(list) => Ok(Within::List(list)),
        Ended::Refuted(_) => Ok(Within::Nothing),
        Ended::GivenUp => Ok(Within::GivenUp),
    }
}

/// Searches for one mapping at a set of positions that decreases, or else for a list that descends.
pub(crate) fn find_at(
    alloc: Global,
    p: &Program,
    component: &Component,
    set: &[u32],
) -> Result<Within, AllocError>
    requires { IsSound p.now component.now }
    ensures within { IfOk result
        (λ within. ForComponent p.now component.now (λ expression comps rows c.
        IsWithin expression p.now comps rows c set.now within)) }
    ensures chosen { IfOk result
        (λ within. ForComponent p.now component.now (λ expression comps rows c.
        IsChosen expression p.now comps rows c set.now within)) }
{
    match level_dual::search(alloc, p, component, set)? {
        Answer::Mapping(mapping) => Ok(Within::List(list_of_one(alloc, &mapping)?)),
        Answer::Refuted => search_within(alloc, p, component, set),
        Answer::Blown => search_within(alloc, p, component, set),
    }
}
