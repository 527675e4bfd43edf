//! Calls for which no turn can be made, found from any of a component's calls.

ghost use Rattle.std.specs.Prelude.{◌≡◌, List, ℕ, IfOk, length, map, true};
ghost use Rattle.level_dual.specs.Components.{ForComponent};
ghost use Rattle.level_systems.specs.Held.{spelled};
ghost use Rattle.level_systems.specs.Searched.{IsSound};
ghost use Rattle.lex_turns.specs.Coursing.{IsLess, KeepReached};
ghost use Rattle.lex_turns.specs.Descending.{positions_at};
ghost use Rattle.lex_turns.specs.Found.{IsVoid};
ghost use Rattle.termination_model.specs.mappings.Supports.{AreDistinct};

use crate::course::Next;
use crate::tracking::{after_falls, kept};
use crate::turn::{Round, Step};
use crate::turning::turn;
use cti_terms::Program;
use level_systems::{Component, Position};
use std::alloc::{AllocError, Global};

/// Makes a turn for the calls that are not gone, if there are any.
fn shrink(
    alloc: Global,
    p: &Program,
    component: &Component,
    at: &[Position],
    gone: &mut Vec<bool>,
) -> Result<Next, AllocError>
    requires sound { IsSound p.now component.now }
    requires distinct { AreDistinct (map spelled at.now) }
    requires gone { length gone.old.items ≡ length component.now.calls.items }
    requires reached { KeepReached component.now.calls.items gone.old.items }
    ensures gone { IfOk result (λ next. length gone.new.items ≡ length component.now.calls.items) }
    ensures reached { IfOk result (λ next. KeepReached component.now.calls.items gone.new.items) }
    ensures less { IfOk result (IsLess p.now component.now at.now gone.old.items gone.new.items) }
{
    let rest = kept(alloc, component.calls.as_slice(), gone.as_slice())?;
    if rest.is_empty() {
        return Ok(Next::Done);
    }
    let round = Round {
        at,
        rest: rest.as_slice(),
        first: false,
    };
    match turn(alloc, p, component, &round)? {
        Step::Made(made) => {
            *gone = after_falls(alloc, gone.as_slice(), made.falls.as_slice())?;
            Ok(Next::More)
        }
        Step::Refuted => Ok(Next::Refuted),
        Step::Blown => Ok(Next::Blown),
    }
}

/// Whether turns at some positions, for the calls that are not gone, come to calls for which none can be made.
pub(crate) fn sticks(
    alloc: Global,
    p: &Program,
    component: &Component,
    at: &[Position],
    gone: Vec<bool>,
) -> Result<bool, AllocError>
    requires sound { IsSound p.now component.now }
    requires distinct { AreDistinct (map spelled at.now) }
    requires gone { length gone.items ≡ length component.now.calls.items }
    requires reached { KeepReached component.now.calls.items gone.items }
    ensures { IfOk result (λ yes. yes ≡ true
        → ForComponent p.now component.now (λ expression comps rows c. (s : List ℕ)
        → map spelled at.now ≡ positions_at expression p.now comps rows c s
        → IsVoid expression p.now comps rows c s)) }
{
    let mut gone = gone;
    loop {
        match shrink(alloc, p, component, at, &mut gone)? {
            Next::More => {}
            Next::Refuted => return Ok(true),
            Next::Done => return Ok(false),
            Next::Blown => return Ok(false),
        }
    }
}
