//! A step of resolution, on goals as they are.

ghost use Rattle.std.specs.Prelude.{◌≡◌, ◌≤◌, ◌++◌, ◌∷◌, IfOk, OnOk, length, map, option_map};
ghost use Rattle.cti_terms.specs.Resolve.{over, raised, resolve_by, resolve};
ghost use Rattle.unifier.specs.Store.{full};
ghost use Rattle.cti_terms.specs.Below.{AtomsBelow};

use crate::copying::push_copies;
use crate::room::Room;
use cti_terms::{Atom, Atoms, Clause, Goal, Program};
use std::alloc::{AllocError, Global};
use unifier::bindings::Bindings;
use unifier::counter::counter_after;
use unifier::heads::{Stacks, unify_head};

/// The goal that a clause leaves of a first atom and others, where its head is of the atom's predicate and unifies with
/// it.
fn left_by_clause<'p>(
    alloc: Global,
    atom: &'p Atom,
    rest: &'p [Atom],
    fresh: u32,
    clause: &'p Clause,
    room: &mut Room,
) -> Result<Option<Goal>, AllocError>
    requires { AtomsBelow fresh (atom.now ∷ rest.now) }
    ensures { IfOk result (λ o. o ≡ option_map
        (λ r. r.1) (resolve_by (atom.now ∷ rest.now) fresh clause.now)) }
{
    if atom.pred.0 != clause.head.pred.0 {
        return Ok(None);
    }
    room.try_one()?;
    let mut bindings = Bindings::new(alloc);
    let mut stacks = Stacks::new(alloc);
    if !unify_head(&mut bindings, &mut stacks, atom, 0, fresh, clause)? {
        return Ok(None);
    }
    room.begin_goal();
    let mut atoms = Atoms::new(alloc);
    push_copies(
        alloc,
        &bindings,
        clause.body.as_slice(),
        fresh,
        room,
        &mut atoms,
    )?;
    push_copies(alloc, &bindings, rest, 0, room, &mut atoms)?;
    let fresh = counter_after(fresh, clause.vars)?;
    Ok(Some(Goal { atoms, fresh }))
}

/// The goal that a clause of a program leaves of a goal, where it resolves it.
pub fn left_by_step(
    alloc: Global,
    program: &Program,
    goal: &Goal,
    number: u32,
    room: &mut Room,
) -> Result<Option<Goal>, AllocError>
    requires first { 1 ≤ number }
    requires last { number ≤ length program.now.clauses }
    requires below { AtomsBelow goal.now.fresh goal.now.atoms }
    ensures { IfOk result (λ o. o ≡ option_map (λ r. r.1) (resolve program.now goal.now number)) }
{
    let atoms = goal.atoms.as_slice();
    if atoms.is_empty() {
        return Ok(None);
    }
    left_by_clause(
        alloc,
        &atoms[0],
        &atoms[1..],
        goal.fresh,
        program.clause(number),
        room,
    )
}
