//! Attempts to resolve a goal by a built-in atom's value.

ghost use Rattle.std.specs.Prelude.{IfOk, OnOk};
ghost use Rattle.ld_resolver.specs.BuiltinAtoms.{value_equations, IsInteger};
ghost use Rattle.ld_resolver.specs.Choices.{value_of, args_of};
ghost use Rattle.unifier.specs.Store.{made};
ghost use Rattle.unifier.specs.Pending.{IsUnified, Extends, KeepsFree};
ghost use Rattle.cti_terms.specs.Below.{ArgumentsBelow};

use crate::choices::Choice;
use std::alloc::AllocError;
use unifier::bindings::Bindings;
use unifier::heads::{Stacks, unify_integer};
use unifier::raised_term::RaisedTerm;

/// Unifies the first argument of a choice's built-in atom with the choice's value, if it has one. The bindings are the
/// choice's. Built-in atoms are rare, so it is not compiled into the search.
#[inline(never)]
pub fn unify_value<'p>(
    bindings: &mut Bindings<'p>,
    stacks: &mut Stacks<'p>,
    choice: Choice<'p>,
) -> Result<bool, AllocError>
    requires below { ArgumentsBelow choice.fresh (args_of bindings.old choice) }
    requires integer { IsInteger (value_of choice) }
    ensures unifier { IfOk result
        (IsUnified (made bindings.old)
        (value_equations (value_of choice.entry) (args_of bindings.old choice.entry))
        (made bindings.new)) }
    ensures extended { OnOk result (Extends bindings.new bindings.old) }
    ensures free { OnOk result
        (KeepsFree (value_equations (value_of choice.entry)
        (args_of bindings.old choice.entry)) bindings.old bindings.new) }
{
    let Some(value) = choice.value else {
        return Ok(true);
    };
    let Some(term) = choice.atom.args.as_slice().first() else {
        return Ok(true);
    };
    let left = RaisedTerm {
        term,
        base: choice.base,
    };
    let right = RaisedTerm {
        term: value,
        base: 0,
    };
    unify_integer(bindings, stacks, left, right, choice.fresh as usize)
}
