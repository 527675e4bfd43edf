//! The places of a component's positions.

ghost use Rattle.std.specs.Prelude.{IfSome};
ghost use Rattle.level_dual.specs.Vanishing.{IsPlace};

use cti_terms::PredId;
use level_systems::Position;
use std::alloc::{AllocError, Global};

/// Where the positions of each predicate begin, up to the last one that has some.
pub(crate) fn starts_of(alloc: Global, positions: &[Position]) -> Result<Vec<usize>, AllocError> {
    let mut starts = Vec::new(alloc);
    for i in 0..positions.len() {
        let pred = positions[i].pred.0 as usize;
        for _before in starts.len()..pred + 1 {
            starts.push(i)?;
        }
    }
    Ok(starts)
}

/// The positions of a component's arguments, and where those of each predicate begin.
#[derive(Drop)]
pub(crate) struct Places<'a> {
    pub(crate) positions: &'a [Position],
    pub(crate) starts: &'a [usize],
}

impl Places<'_> {
    /// The place of an argument, if it stands where the positions of its predicate begin.
    pub(crate) fn of(&self, pred: PredId, argument: usize) -> Option<usize>
        ensures { IfSome result (IsPlace self.now.positions.now pred.0 argument) }
    {
        if pred.0 as usize >= self.starts.len() {
            return None;
        }
        let place = self.starts[pred.0 as usize].checked_add(argument)?;
        if place >= self.positions.len() {
            return None;
        }
        let position = self.positions[place];
        if position.pred.0 == pred.0 && position.argument as usize == argument {
            Some(place)
        } else {
            None
        }
    }
}
