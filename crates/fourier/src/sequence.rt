//! Steps of elimination, one after the other.

ghost use Rattle.std.specs.Prelude.{◌≡◌, ◌<◌, ◌≤◌, ◌^◌};
ghost use Rattle.linear_rows.specs.Step.{columns};
ghost use Rattle.sparse_rows.specs.Adding.{OneLength};
ghost use Rattle.fourier.specs.History.{StepsSay};

use crate::fault::ElimFault;
use crate::history::History;
use crate::stepping::step;
use sparse_rows::Lines;
use std::alloc::Global;

/// The rows before each step, and those that the last one leaves.
#[derive(Drop)]
pub struct Steps {
    pub before: History,
    pub left: Lines,
}

/// Eliminates the columns 1 to `count` in order, by brief steps or by whole ones. The columns 1 to `last` are compared.
pub fn eliminate_columns(
    alloc: Global,
    rows: Lines,
    count: usize,
    last: usize,
    brief: bool,
) -> Result<Steps, ElimFault>
    requires long { OneLength rows }
    requires count { count ≤ last }
    requires last { last < 2 ^ 32 }
    ensures { StepsSay brief last (columns 1 count) rows result }
{
    if !rows.fit() {
        return Err(ElimFault::Blown {
            step: 0,
            wide: true,
        });
    }
    let mut before = History::new(alloc);
    let mut current = rows;
    for i in 0..count {
        match step(alloc, &current, i + 1, last, brief) {
            Ok(next) => {
                before.push(current)?;
                current = next;
            }
            Err(fault) => return Err(fault.at(i as u32 + 1)),
        }
    }
    Ok(Steps {
        before,
        left: current,
    })
}
