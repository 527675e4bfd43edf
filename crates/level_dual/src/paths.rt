//! The order in which marks spread over a component's calls.

use crate::places::starts_of;
use crate::rays::rays_of;
use cti_terms::{PredId, Program};
use level_systems::{Component, OwnCall};
use linear_rows::Numbers;
use sequences::Sequence;
use std::alloc::{AllocError, Global};

/// A call, by its number, and rays of the size rows before it.
#[derive(Drop)]
pub(crate) struct Step {
    pub(crate) call: usize,
    pub(crate) rays: Sequence<Numbers>,
}

/// Where the positions of each predicate begin, and the calls in an order that follows them.
///
/// After the step of a call stands one of a call that its callee makes, as long as one is left, so that the calls of a
/// ring stand in one row, however its clauses are ordered.
pub(crate) struct Paths {
    pub(crate) starts: Vec<usize>,
    pub(crate) steps: Vec<Step>,
}

impl Drop for Paths {
    fn drop(self) {
        let Paths {
            starts: _,
            steps: _,
        } = self;
    }
}

impl Paths {
    /// The paths of a component.
    pub(crate) fn of(
        alloc: Global,
        p: &Program,
        component: &Component,
    ) -> Result<Paths, AllocError> {
        let starts = starts_of(alloc, component.positions.as_slice())?;
        let steps = steps_of(alloc, p.preds(), component.calls.as_slice())?;
        Ok(Paths { starts, steps })
    }
}

/// Chains the calls of each predicate: `first` gets the first one that it makes, and `later` the next one after each
/// call. The number of all calls stands for none.
fn chain_calls(calls: &[OwnCall], first: &mut Vec<usize>, later: &mut Vec<usize>) {
    for after in 0..calls.len() {
        let number = calls.len() - 1 - after;
        let caller = calls[number].caller.0 as usize;
        if caller < first.len() && number < later.len() {
            later[number] = first[caller];
            first[caller] = number;
        }
    }
}

/// Takes the first call of a predicate out of its chain, if one is left.
fn take_first(caller: PredId, first: &mut Vec<usize>, later: &[usize]) -> Option<usize> {
    let number = *first.get(caller.0 as usize)?;
    let next = *later.get(number)?;
    first[caller.0 as usize] = next;
    Some(number)
}

/// Adds the steps of a call that a predicate makes, of one that its callee makes, and so on, as long as one is left.
fn follow(
    alloc: Global,
    calls: &[OwnCall],
    from: PredId,
    first: &mut Vec<usize>,
    later: &[usize],
    steps: &mut Vec<Step>,
) -> Result<(), AllocError> {
    let mut caller = from;
    for _step in 0..calls.len() {
        let Some(number) = take_first(caller, first, later) else {
            return Ok(());
        };
        if number >= calls.len() {
            return Ok(());
        }
        let own = &calls[number];
        let rays = rays_of(alloc, own)?;
        steps.push(Step { call: number, rays })?;
        caller = own.callee;
    }
    Ok(())
}

/// A step for each call, each after one that calls its caller where that can be. The program has `preds` predicates.
fn steps_of(alloc: Global, preds: u32, calls: &[OwnCall]) -> Result<Vec<Step>, AllocError> {
    let mut first = vec![in alloc; calls.len(); preds as usize]?;
    let mut later = vec![in alloc; calls.len(); calls.len()]?;
    chain_calls(calls, &mut first, &mut later);
    let mut steps = Vec::new(alloc);
    for number in 0..calls.len() {
        let caller = calls[number].caller;
        if first.get(caller.0 as usize) == Some(&number) {
            follow(
                alloc,
                calls,
                caller,
                &mut first,
                later.as_slice(),
                &mut steps,
            )?;
        }
    }
    Ok(steps)
}
