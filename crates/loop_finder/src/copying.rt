//! Terms and atoms under bindings, as terms of their own.

ghost use Rattle.std.specs.Prelude.{◌≡◌, ◌<◌, ◌^◌, ◌++◌, IfOk, OnOk, map};
ghost use Rattle.cti_terms.specs.Spell.{tree_of};
ghost use Rattle.unifier.specs.Raised.{raised_tree};
ghost use Rattle.unifier.specs.Store.{full};
ghost use Rattle.loop_finder.specs.Copies.{atom_copies, copies};

use crate::limits::MOST_GOAL_LEVELS;
use crate::room::Room;
use cti_terms::{Atom, Atoms, Term, Terms};
use std::alloc::{AllocError, Global};
use unifier::bindings::Bindings;
use unifier::raised_term::{RaisedTerm, Shape};

/// A variable's number in a term. Above all that a term can hold, it is out of memory.
fn variable_number(variable: usize) -> Result<u32, AllocError>
    requires { variable < 2 ^ 33 }
    ensures { IfOk result (λ n. n ≡ variable) }
{
    if variable > u32::MAX as usize {
        return Err(AllocError);
    }
    Ok(variable as u32)
}

/// A term under the bindings. Of more levels or nodes than there is room for, it is out of memory.
#[cycle(copied)]
fn copied_term<'p>(
    alloc: Global,
    bindings: &Bindings<'p>,
    term: RaisedTerm<'p>,
    levels: u32,
    room: &mut Room,
) -> Result<Term, AllocError>
    ensures { IfOk result (λ u. tree_of u ≡ full bindings.now (raised_tree term.entry)) }
{
    if levels == 0 {
        return Err(AllocError);
    }
    room.take_one()?;
    let met = bindings.met(term);
    match met.shape {
        Shape::Variable(x) => Ok(Term::Var(variable_number(x)?)),
        Shape::Integer(n) => Ok(Term::Int(*n)),
        Shape::Compound(f, args) => {
            let terms = copied_terms(alloc, bindings, args, met.term.base, levels - 1, room)?;
            Ok(Term::Fun(f, terms))
        }
    }
}

/// Copies of terms under bindings.
#[cycle(copied)]
fn copied_terms<'p>(
    alloc: Global,
    bindings: &Bindings<'p>,
    args: &'p [Term],
    base: u32,
    levels: u32,
    room: &mut Room,
) -> Result<Vec<Term>, AllocError>
    ensures { IfOk result (λ us. map tree_of us.items ≡ copies bindings.now base args.now) }
{
    let mut terms = Vec::new(alloc);
    for term in args {
        terms.push(copied_term(alloc, bindings, RaisedTerm { term, base }, levels, room)?)?;
    }
    Ok(terms)
}

/// Adds atoms with their variables raised, under the bindings. Out of memory, some may have been added.
pub fn push_copies<'p>(
    alloc: Global,
    bindings: &Bindings<'p>,
    atoms: &'p [Atom],
    base: u32,
    room: &mut Room,
    out: &mut Atoms,
) -> Result<(), AllocError>
    ensures { OnOk result (out.new ≡ out.old ++ atom_copies bindings.now base atoms.now) }
{
    for atom in atoms {
        let terms = copied_terms(
            alloc,
            bindings,
            atom.args.as_slice(),
            base,
            MOST_GOAL_LEVELS,
            room,
        )?;
        let args = Terms::from_vec(terms);
        out.push(Atom {
            pred: atom.pred,
            args,
        })?;
    }
    Ok(())
}
