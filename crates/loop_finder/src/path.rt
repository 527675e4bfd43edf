//! The derivation that is being looked at.

ghost use Rattle.std.specs.Prelude.{◌≡◌, ◌<◌, ◌≤◌, ◌+◌, ◌-◌, ◌++◌, ℕ, List, [], ◌∷◌, IfOk, OnOk, MatchOption, IsTrue, ◌↔◌, length, slice_get, Some};
ghost use Rattle.cti_terms.specs.declared.derivation.Goal.{Goal as TheGoal};
ghost use Rattle.cti_terms.specs.Lifts.{IsMoreGeneral};
ghost use Rattle.loop_finder.specs.Loop.{FirstIs};
ghost use Rattle.loop_finder.specs.Paths.{IsCycleAt};

use crate::matching::is_more_general_atom;
use crate::room::Room;
use cti_terms::{Atom, Goal};
use std::alloc::{AllocError, Global};

/// The numbers of a derivation, and the goals that its beginnings leave, the whole goal first.
#[derive(Drop)]
pub struct Path {
    pub numbers: Vec<u32>,
    pub goals: Vec<Goal>,
}

impl Path {
    /// The goal that the derivation leaves.
    pub fn last(&self) -> &Goal
        requires { 0 < length self.now.goals.items }
        ensures { slice_get self.now.goals.items (length self.now.goals.items - 1)
            ≡ Some result.now }
    {
        &self.goals[self.goals.len() - 1]
    }

    /// Adds a step, and the goal that it leaves. Out of memory, a part may have been added.
    pub fn push(&mut self, number: u32, goal: Goal) -> Result<(), AllocError>
        ensures numbers { OnOk result (self.new.numbers.items ≡ self.old.numbers.items ++ number
            ∷ []) }
        ensures goals { OnOk result (self.new.goals.items ≡ self.old.goals.items ++ goal ∷ []) }
    {
        self.numbers.push(number)?;
        self.goals.push(goal)?;
        Ok(())
    }

    /// Takes the last step back.
    pub fn pop(&mut self)
        ensures numbers { (xs : List ℕ) (x : ℕ) → self.old.numbers.items ≡ xs ++ x ∷ []
            → self.new.numbers.items ≡ xs }
        ensures goals { (gs : List TheGoal) (g : TheGoal) → self.old.goals.items ≡ gs ++ g ∷ []
            → self.new.goals.items ≡ gs }
    {
        let _number = self.numbers.pop();
        let _goal = self.goals.pop();
    }
}

/// Whether each of the goals has at least so many atoms.
fn all_have(goals: &[Goal], count: usize) -> bool
    ensures { IsTrue result ↔ ((j : ℕ) (h : TheGoal) → slice_get goals.now j ≡ Some h
        → count ≤ length h.atoms) }
{
    for goal in goals {
        if goal.atoms.len() < count {
            return false;
        }
    }
    true
}

/// Whether the first of the atoms is more general than the first of the others.
fn is_first_more_general(
    alloc: Global,
    general: &[Atom],
    special: &[Atom],
    room: &mut Room,
) -> Result<bool, AllocError>
    ensures { IfOk result (λ r. IsTrue r
        ↔ FirstIs (λ a. FirstIs (λ b. IsMoreGeneral b a) general.now) special.now) }
{
    if general.is_empty() || special.is_empty() {
        return Ok(false);
    }
    let more_general = is_more_general_atom(alloc, &general[0], &special[0], room)?;
    Ok(more_general)
}

/// Whether the goals from this one on are a cycle.
fn is_cycle(
    alloc: Global,
    goals: &[Goal],
    start: usize,
    room: &mut Room,
) -> Result<bool, AllocError>
    requires { start + 1 < length goals.now }
    ensures { IfOk result (λ r. IsTrue r ↔ IsCycleAt goals.now start) }
{
    let before = &goals[start];
    let last = &goals[goals.len() - 1];
    if !all_have(&goals[start + 1..], before.atoms.len()) {
        return Ok(false);
    }
    let comes_back = is_first_more_general(
        alloc,
        last.atoms.as_slice(),
        before.atoms.as_slice(),
        room,
    )?;
    Ok(comes_back)
}

/// The last goal from which on the goals are a cycle, if there is one.
pub fn cycle_start(
    alloc: Global,
    goals: &[Goal],
    room: &mut Room,
) -> Result<Option<usize>, AllocError>
    requires { 0 < length goals.now }
    ensures { IfOk result (λ o. MatchOption o ((i : ℕ) → IsCycleAt goals.now i → ⊥)
        (λ s. IsCycleAt goals.now s × ((i : ℕ) → s < i → IsCycleAt goals.now i → ⊥))) }
{
    let mut start = goals.len() - 1;
    while start > 0 {
        start -= 1;
        if is_cycle(alloc, goals, start, room)? {
            return Ok(Some(start));
        }
    }
    Ok(None)
}
