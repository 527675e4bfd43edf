//! Goals where a clause is to be chosen, or where a built-in atom comes first.

ghost use Rattle.std.specs.Prelude.{◌≡◌, ◌≤◌, ◌<◌, ◌+◌, ◌++◌, [], ◌∷◌, IfOk, OnOk, length, map};
ghost use Rattle.cti_terms.specs.Resolve.{raised};
ghost use Rattle.ld_resolver.specs.Tails.{tail_at};
ghost use Rattle.ld_resolver.specs.Choices.{IsStart, GrowsTo};

use crate::tails::{Tail, Tails};
use cti_terms::{Atom, Term};
use std::alloc::AllocError;

/// A goal by its first atom, whose variables are raised, and the number of its rest, with what is to be tried next.
#[derive(Clone, Copy, Drop)]
pub struct Choice<'p> {
    pub atom: &'p Atom,
    pub base: u32,
    pub rest: usize,
    /// The goal's counter.
    pub fresh: u32,
    /// The number of the clause to be tried next, and 0 for a built-in atom.
    pub next: u32,
    /// The integer that the first argument of a built-in atom has to become, if it has to.
    pub value: Option<&'p Term>,
    /// How many bindings the goal has.
    pub mark: usize,
    /// How many rests there are with the goal's.
    pub rests: usize,
    /// How many steps lead to the goal.
    pub depth: u64,
}

/// The first atom of a goal, whose variables are raised, and the number of the goal's rest.
#[derive(Clone, Copy, Drop)]
pub struct Start<'p> {
    pub atom: &'p Atom,
    pub base: u32,
    pub rest: usize,
}

/// The number of the rest that has these atoms, raised, and then another rest.
#[inline(always)]
fn rest_number<'p>(
    tails: &mut Tails<'p>,
    atoms: &'p [Atom],
    base: u32,
    next: usize,
) -> Result<usize, AllocError>
    requires { next ≤ length tails.old }
    ensures rest { IfOk result
        (λ n. tail_at tails.new n ≡ map (raised base) atoms.now ++ tail_at tails.old next) }
    ensures within { IfOk result (λ n. n ≤ length tails.new) }
    ensures grown { OnOk result (GrowsTo tails.old tails.new) }
{
    if atoms.is_empty() {
        return Ok(next);
    }
    tails.push(Tail { atoms, base, next })
}

/// The start of the goal that has these atoms, raised, and then a rest.
#[inline(always)]
fn start_of<'p>(
    tails: &mut Tails<'p>,
    atoms: &'p [Atom],
    base: u32,
    next: usize,
) -> Result<Option<Start<'p>>, AllocError>
    requires atoms { 0 < length atoms.now }
    requires rest { next ≤ length tails.old }
    ensures start { IfOk result
        (IsStart (map (raised base) atoms.now ++ tail_at tails.old next) tails.new) }
    ensures grown { OnOk result (GrowsTo tails.old tails.new) }
{
    let (atom, after) = (&atoms[0], &atoms[1..]);
    let rest = rest_number(tails, after, base, next)?;
    Ok(Some(Start { atom, base, rest }))
}

/// The start of the goal that has the body of a clause, raised, and then a rest, unless it has no atoms. It is compiled
/// into the loop of a run.
#[inline(always)]
pub fn goal_start<'p>(
    tails: &mut Tails<'p>,
    body: &'p [Atom],
    base: u32,
    next: usize,
) -> Result<Option<Start<'p>>, AllocError>
    requires { next ≤ length tails.old }
    ensures start { IfOk result
        (IsStart (map (raised base) body.now ++ tail_at tails.old next) tails.new) }
    ensures grown { OnOk result (GrowsTo tails.old tails.new) }
{
    if !body.is_empty() {
        return start_of(tails, body, base, next);
    }
    if next == 0 {
        return Ok(None);
    }
    let tail = tails.get(next);
    start_of(tails, tail.atoms, tail.base, tail.next)
}
