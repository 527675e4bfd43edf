//! The search for a loop.

ghost use Rattle.std.specs.Prelude.{◌≡◌, ◌≤◌, ◌-◌, ℕ, IfOk, Some, length};
ghost use Rattle.cti_terms.specs.Nodes.{under};
ghost use Rattle.loop_finder.specs.ClauseNodes.{clause_nodes};
ghost use Rattle.cti_terms.specs.Resolve.{resolve};
ghost use Rattle.cti_terms.specs.declared.derivation.Goal.{Goal as TheGoal};
ghost use Rattle.cti_terms.specs.Lifts.{left_after};
ghost use Rattle.loop_finder.specs.Looking.{IsPathOf, IsUnder, going_on};
ghost use Rattle.loop_finder.specs.Paths.{IsPath};

use crate::limits::MOST_DERIVATIONS;
use crate::path::{Path, cycle_start};
use crate::room::Room;
use crate::steps::left_by_step;
use cti_terms::Program;
use std::alloc::{AllocError, Global};

/// How many derivations were looked at, and how much may still be gone over.
#[derive(Drop)]
pub struct Effort {
    pub looked: u64,
    pub room: Room,
}

/// What was found under a goal: nothing; that the path's end from a number on is a cycle; or that enough was looked at.
#[derive(Clone, Copy, Drop)]
pub enum Under {
    Nothing,
    Cycle(usize),
    Enough,
}

/// Looks at the derivations that a clause gives of the path's last goal, of at most so many steps more.
#[cycle(look)]
fn look_at(
    alloc: Global,
    program: &Program,
    path: &mut Path,
    number: u32,
    steps: u32,
    effort: &mut Effort,
) -> Result<Under, AllocError>
    requires path { IsPathOf program.now path.old }
    requires first { 1 ≤ number }
    requires last { number ≤ length program.now.clauses }
    requires looked { effort.old.looked ≤ 100000 }
    ensures under { IfOk result (λ u. (g h : TheGoal)
        → IsPath program.now g path.old.numbers.items path.old.goals.items
        → left_after program.now g path.old.numbers.items ≡ Some h
        → IsUnder program.now g (100000 - effort.old.looked)
        (going_on path.old.numbers.items
        (under number (clause_nodes program.now steps)
        (resolve program.now h number))) path.old effort.old.looked u path.new effort.new.looked) }
{
    let next = match left_by_step(alloc, program, path.last(), number, &mut effort.room)? {
        Some(goal) => goal,
        None => return Ok(Under::Nothing),
    };
    if effort.looked == MOST_DERIVATIONS {
        return Ok(Under::Enough);
    }
    effort.looked += 1;
    path.push(number, next)?;
    match cycle_start(alloc, path.goals.as_slice(), &mut effort.room)? {
        Some(start) => return Ok(Under::Cycle(start)),
        None => {}
    }
    match look_under(alloc, program, path, steps, effort)? {
        Under::Nothing => {
            path.pop();
            Ok(Under::Nothing)
        }
        Under::Cycle(start) => Ok(Under::Cycle(start)),
        Under::Enough => Ok(Under::Enough),
    }
}

/// Looks at the derivations from the path's last goal of at most so many steps more.
#[cycle(look)]
pub fn look_under(
    alloc: Global,
    program: &Program,
    path: &mut Path,
    steps: u32,
    effort: &mut Effort,
) -> Result<Under, AllocError>
    requires path { IsPathOf program.now path.old }
    requires looked { effort.old.looked ≤ 100000 }
    ensures under { IfOk result (λ u. (g h : TheGoal)
        → IsPath program.now g path.old.numbers.items path.old.goals.items
        → left_after program.now g path.old.numbers.items ≡ Some h
        → IsUnder program.now g (100000 - effort.old.looked)
        (going_on path.old.numbers.items
        (clause_nodes program.now steps h)) path.old effort.old.looked u path.new effort.new.looked) }
{
    if steps == 0 {
        return Ok(Under::Nothing);
    }
    for k in 0..program.clauses() {
        match look_at(alloc, program, path, k + 1, steps - 1, effort)? {
            Under::Nothing => {}
            Under::Cycle(start) => return Ok(Under::Cycle(start)),
            Under::Enough => return Ok(Under::Enough),
        }
    }
    Ok(Under::Nothing)
}
