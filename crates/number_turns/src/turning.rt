//! Turns.

ghost use Rattle.std.specs.Prelude.{◌≡◌, IfOk, false, map};
ghost use Rattle.std.specs.List.{AllByRecursion};
ghost use Rattle.linear_rows.specs.Plain.{HaveWidth, plain_rows};
ghost use Rattle.number_turns.specs.Recalled.{HasNumbers, recalled_of, spelled};
ghost use Rattle.number_turns.specs.Turning.{IsTurned, IsTurnedExactly, turn_rows, turn_unknowns};

use crate::demand::demands_of;
use crate::feature::Feature;
use crate::found::found_at;
use crate::solving::solve_by;
use crate::template::template;
use crate::transition::Transition;
use crate::turned::Turned;
use fourier::ElimFault;
use linear_rows::{Rows, Solved};
use std::alloc::{AllocError, Global};

/// The system of a turn: the rows of its template.
fn system_of(
    alloc: Global,
    transitions: &[&Transition],
    marks: &[bool],
    features: &[Feature],
) -> Result<Rows, AllocError>
    requires { AllByRecursion HasNumbers (recalled_of transitions.now) }
    ensures width { IfOk result (λ system. system.width ≡ turn_unknowns (map spelled features.now)
        (recalled_of transitions.now) marks.now) }
    ensures widths { IfOk result (λ system. HaveWidth system.width system.list) }
    ensures rows { IfOk result (λ system. plain_rows system.list
        ≡ turn_rows (map spelled features.now) (recalled_of transitions.now) marks.now) }
{
    let demands = demands_of(alloc, transitions, marks)?;
    let system = template(alloc, demands.as_slice(), features)?;
    Ok(system)
}

/// Takes a turn: looks for a mapping that is 0 but at the given numbers, that rises at none of the transitions, and
/// that falls by 1 and is at least 0 on the head at those that are marked. What is past the end of the marks is not
/// marked.
///
/// The template is solved by pivots, and by elimination where these find nothing, or by elimination alone. A template
/// with more than 2^32 unknowns or 2^25 numbers is out of memory.
///
/// Source: linear templates and Farkas' lemma, as in Colón and Sipma 2001; Podelski and Rybalchenko 2004.
pub fn turn(
    alloc: Global,
    transitions: &[&Transition],
    marks: &[bool],
    features: &[Feature],
    by_pivots: bool,
) -> Result<Turned, AllocError>
    // The numbers of the rows fit, and those of the columns are natural: `has_numbers` tests this.
    requires { AllByRecursion HasNumbers (recalled_of transitions.now) }

    // A mapping is shown, multipliers refute the template, and it is blown only where elimination is.
    ensures turned { IfOk result (IsTurned (map spelled features.now)
        (recalled_of transitions.now) marks.now) }

    // By elimination alone, it is what elimination finds.
    ensures exact { by_pivots ≡ false → IfOk result (IsTurnedExactly (map spelled features.now)
        (recalled_of transitions.now) marks.now) }
{
    let system = system_of(alloc, transitions, marks, features)?;
    match solve_by(alloc, &system, by_pivots) {
        Ok(Solved::Point(point)) => {
            let found = found_at(alloc, point.w.as_slice(), features.len())?;
            Ok(Turned::Found(found))
        }
        Ok(Solved::Refuted(by)) => Ok(Turned::Refuted(by.list)),
        Err(ElimFault::Blown { .. }) => Ok(Turned::Blown),
        Err(ElimFault::Memory) => Err(AllocError),
    }
}
