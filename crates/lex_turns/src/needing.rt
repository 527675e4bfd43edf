//! Positions that are seen to be needed by a list, from the calls that leave where they are first used.

ghost use Rattle.std.specs.Prelude.{◌≡◌, IfOk, None, false, length, true};
ghost use Rattle.level_dual.specs.Components.{ForComponent};
ghost use Rattle.level_systems.specs.Searched.{IsSound};
ghost use Rattle.lex_turns.specs.Coursing.{KeepReached};
ghost use Rattle.lex_turns.specs.Found.{IsChosen, IsVoid, IsWithin};

use crate::finding::find_at;
use crate::measure_list::MeasureList;
use crate::sparing::sticks;
use crate::within::Within;
use cti_terms::{PredId, Program};
use level_dual::{has_coefficient, positions_at};
use level_systems::{Component, OwnCall, Position};
use std::alloc::{AllocError, Global};

/// A turn of a list, by its number from 0 on.
#[derive(Clone, Copy)]
struct Leaving<'a> {
    list: &'a MeasureList,
    turn: usize,
}

impl Leaving<'_> {
    /// Whether the call of this number leaves in the turn.
    fn leaves(&self, call: usize) -> bool {
        let drops = self.list.drops.as_slice();
        call < drops.len() && drops[call].by.len().checked_sub(1) == Some(self.turn)
    }
}

/// The turn in which a list first has a positive coefficient at a position.
fn first_use(list: &MeasureList, position: Position) -> usize {
    let measures = list.measures.as_slice();
    for turn in 0..measures.len() {
        if has_coefficient(measures[turn].as_slice(), position) {
            return turn;
        }
    }
    0
}

/// Whether a predicate is marked.
fn is_marked(marks: &[bool], pred: PredId) -> bool {
    let place = pred.0 as usize;
    place < marks.len() && marks[place]
}

/// Marks a predicate.
fn mark(marks: &mut Vec<bool>, pred: PredId) {
    let place = pred.0 as usize;
    if place < marks.len() {
        marks[place] = true;
    }
}

/// Marks the predicates that calls which leave in a turn link with marked ones. Says whether there were any.
fn link(component: &Component, leaving: Leaving<'_>, marks: &mut Vec<bool>) -> bool {
    let mut more = false;
    for i in 0..component.calls.len() {
        let own = &component.calls[i];
        let caller = is_marked(marks.as_slice(), own.caller);
        let callee = is_marked(marks.as_slice(), own.callee);
        if caller != callee && leaving.leaves(i) {
            mark(marks, own.caller);
            mark(marks, own.callee);
            more = true;
        }
    }
    more
}

/// Marks of the predicates that calls which leave in a turn link with this one.
fn linked(
    alloc: Global,
    component: &Component,
    leaving: Leaving<'_>,
    pred: PredId,
) -> Result<Vec<bool>, AllocError> {
    let mut marks = Vec::new(alloc);
    for member in &component.members {
        for _before in marks.len()..member.0 as usize + 1 {
            marks.push(false)?;
        }
    }
    mark(&mut marks, pred);
    for _pass in 0..component.calls.len() {
        if !link(component, leaving, &mut marks) {
            return Ok(marks);
        }
    }
    Ok(marks)
}

/// Whether a call is never reached, or does not leave, or is not of a marked predicate.
fn is_out(own: &OwnCall, leaves: bool, marks: &[bool]) -> bool
    ensures { result ≡ false → own.now.empty ≡ None }
{
    if own.empty.is_some() {
        return true;
    }
    !leaves || !is_marked(marks, own.caller)
}

/// Says of each call that it is gone, but for those that can be reached, leave in a turn and are of marked predicates.
fn all_but(
    alloc: Global,
    component: &Component,
    leaving: Leaving<'_>,
    marks: &[bool],
) -> Result<Vec<bool>, AllocError>
    ensures gone { IfOk result (λ gone. length gone.items ≡ length component.now.calls.items) }
    ensures reached { IfOk result (λ gone. KeepReached component.now.calls.items gone.items) }
{
    let calls = component.calls.as_slice();
    let mut gone = Vec::new(alloc);
    for i in 0..calls.len() {
        let out = is_out(&calls[i], leaving.leaves(i), marks);
        gone.push(out)?;
    }
    Ok(gone)
}

/// Whether calls are seen for which no turn can be made at a set, which is the support of a list without this position.
fn is_needed(
    alloc: Global,
    p: &Program,
    component: &Component,
    list: &MeasureList,
    set: &[u32],
    position: Position,
) -> Result<bool, AllocError>
    requires { IsSound p.now component.now }
    ensures { IfOk result (λ yes. yes ≡ true
        → ForComponent p.now component.now (λ expression comps rows c.
        IsVoid expression p.now comps rows c set.now)) }
{
    let leaving = Leaving {
        list,
        turn: first_use(list, position),
    };
    let marks = linked(alloc, component, leaving, position.pred)?;
    let gone = all_but(alloc, component, leaving, marks.as_slice())?;
    let at = positions_at(alloc, component, set)?;
    sticks(alloc, p, component, at.as_slice(), gone)
}

/// Searches at a set, which is the support of a list without the position of this number, unless it is seen that no
/// list descends there.
pub(crate) fn search_without(
    alloc: Global,
    p: &Program,
    component: &Component,
    list: &MeasureList,
    set: &[u32],
    number: u32,
) -> Result<Within, AllocError>
    requires { IsSound p.now component.now }
    ensures within { IfOk result
        (λ within. ForComponent p.now component.now (λ expression comps rows c.
        IsWithin expression p.now comps rows c set.now within)) }
    ensures chosen { IfOk result
        (λ within. ForComponent p.now component.now (λ expression comps rows c.
        IsChosen expression p.now comps rows c set.now within)) }
{
    let positions = component.positions.as_slice();
    if number > 0 && number as usize <= positions.len() {
        let position = positions[number as usize - 1];
        if is_needed(alloc, p, component, list, set, position)? {
            return Ok(Within::Nothing);
        }
    }
    find_at(alloc, p, component, set)
}
