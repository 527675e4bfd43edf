//! Looking for a loop.

ghost use Rattle.std.specs.Prelude.{◌≡◌, ◌≤◌, [], ◌∷◌, IfOk, drop, length, take};
ghost use Rattle.loop_finder.specs.ClauseNodes.{clause_nodes};
ghost use Rattle.cti_terms.specs.Below.{AtomsBelow};
ghost use Rattle.loop_finder.specs.Finding.{IsLooked, IsLoopOf, IfLoop};
ghost use Rattle.cti_terms.specs.Lifts.{IsGoalOf};
ghost use Rattle.loop_finder.specs.Loop.{GoesOn};
ghost use Rattle.cti_terms.specs.Derive.{Bounded};

use crate::copying::push_copies;
use crate::path::Path;
use crate::room::Room;
use crate::search::{Effort, Under, look_under};
use cti_terms::{Atoms, Goal, Program};
use std::alloc::{AllocError, Global};
use unifier::bindings::Bindings;

/// What was found among the derivations that were looked at.
#[derive(Drop)]
pub enum Looked {
    /// A loop: the steps before it, and its cycle.
    Loop { before: Vec<u32>, cycle: Vec<u32> },

    /// None of them is a loop; there are this many.
    NoLoop { steps: u64 },

    /// None of them is a loop, and there are more.
    Stopped,
}

/// A copy of a goal.
fn copied_goal(alloc: Global, goal: &Goal, room: &mut Room) -> Result<Goal, AllocError>
    ensures { IfOk result (λ g. g ≡ goal.now) }
{
    let bindings = Bindings::new(alloc);
    room.begin_goal();
    let mut atoms = Atoms::new(alloc);
    push_copies(alloc, &bindings, goal.atoms.as_slice(), 0, room, &mut atoms)?;
    let fresh = goal.fresh;
    Ok(Goal { atoms, fresh })
}

/// The path of the empty derivation from a goal.
fn start_path(alloc: Global, goal: &Goal, room: &mut Room) -> Result<Path, AllocError>
    ensures numbers { IfOk result (λ p. p.numbers.items ≡ []) }
    ensures goals { IfOk result (λ p. p.goals.items ≡ goal.now ∷ []) }
{
    let copy = copied_goal(alloc, goal, room)?;
    let mut goals = Vec::new(alloc);
    goals.push(copy)?;
    let numbers = Vec::new(alloc);
    Ok(Path { numbers, goals })
}

/// The loop whose numbers these are, with its cycle from this place on.
fn loop_of(alloc: Global, numbers: &[u32], start: usize) -> Result<Looked, AllocError>
    requires { start ≤ length numbers.now }
    ensures { IfOk result (IsLoopOf (take start numbers.now) (drop start numbers.now)) }
{
    let before = Vec::from_slice(alloc, &numbers[..start])?;
    let cycle = Vec::from_slice(alloc, &numbers[start..])?;
    Ok(Looked::Loop { before, cycle })
}

/// Looks for a loop among the derivations from a goal of at most `depth` steps, from 1 to 12, in lexicographic order,
/// and at no more than the first 100,000 of them.
///
/// Fails where there is no memory, where a goal that is made has more than 100,000 nodes or 4,000 levels of terms, and
/// where the search has gone over 100,000,000 nodes or unified 1,000,000,000 heads.
///
/// Source: derivations that come back to a more general atom, as in Payet and Mesnard 2006.
pub fn find(alloc: Global, program: &Program, goal: &Goal, depth: u32) -> Result<Looked, AllocError>
    requires goal { IsGoalOf program.now goal.now }
    requires first { 1 ≤ depth }
    requires last { depth ≤ 12 }
    ensures looked { IfOk result
        (IsLooked program.now goal.now (clause_nodes program.now depth goal.now)) }

    // Where it answers a loop, the cycle can be gone through over and over again, so the goal is not bounded.
    ensures goes_on { IfOk result (IfLoop (GoesOn program.now goal.now)) }
    ensures unbounded { IfOk result (IfLoop (λ _ _. Bounded program.now goal.now → ⊥)) }
{
    let _count = program.clauses();
    let mut effort = Effort {
        looked: 0,
        room: Room::of_search(),
    };
    let mut path = start_path(alloc, goal, &mut effort.room)?;
    match look_under(alloc, program, &mut path, depth, &mut effort)? {
        Under::Nothing => Ok(Looked::NoLoop {
            steps: effort.looked,
        }),
        Under::Cycle(start) => {
            let found = loop_of(alloc, path.numbers.as_slice(), start)?;
            Ok(found)
        }
        Under::Enough => Ok(Looked::Stopped),
    }
}
