//! Whether a variable occurs in a term under the bindings.

ghost use Rattle.std.specs.Prelude.{◌≡◌, ℕ, ◌≤◌, ◌<◌, ◌+◌, ◌^◌, ◌++◌, IfOk, IfSome, OnOk, map};
ghost use Rattle.cti_terms.specs.Tree.{instance, nodes_of};
ghost use Rattle.cti_terms.specs.Spell.{tree_of};
ghost use Rattle.unifier.specs.Raised.{raise, raised_tree};
ghost use Rattle.unifier.specs.Store.{full};
ghost use Rattle.unifier.specs.Pending.{raw, weight};
ghost use Rattle.unifier.specs.Visits.{IsOccurrence, IsFlat, IsReached, IsLookedAt, arguments_tree, raw_arguments};

use crate::bindings::Bindings;
use crate::raised_term::{RaisedTerm, Shape};
use crate::visited::Visited;
use cti_terms::Term;
use std::alloc::AllocError;

/// Whether a variable occurs in a term, or else a number above each variable that does.
#[derive(Clone, Copy, Drop)]
pub enum Occurrence {
    Found,
    Below(usize),
}

/// Arguments that are still to be looked at, with the number by which their variables are raised.
#[derive(Clone, Copy, Drop)]
pub struct Arguments<'p> {
    pub args: &'p [Term],
    pub base: u32,
}

/// A number above these variables.
fn past(above: usize, other: usize) -> usize
    requires { other < 2 ^ 33 }
    ensures older { above ≤ result }
    ensures newer { other < result }
{
    above.max(other + 1)
}

/// Puts the arguments of a raised term on the stack.
pub fn push_arguments<'p>(
    stack: &mut Vec<RaisedTerm<'p>>,
    args: &'p [Term],
    base: u32,
) -> Result<(), AllocError>
    ensures { OnOk result (raw stack.new.items ≡ raw stack.old.items ++ map (instance (raise base))
        (map tree_of args.now)) }
{
    for term in args {
        stack.push(RaisedTerm { term, base })?;
    }
    Ok(())
}

/// The term that is not a bound variable and stands for this one, unless it is a constant that a variable is bound to,
/// or a variable on the way to it was visited. The variables on the way are visited.
#[inline(always)]
fn reached<'p>(
    bindings: &Bindings<'p>,
    term: RaisedTerm<'p>,
    visited: &mut Visited,
) -> Result<Option<RaisedTerm<'p>>, AllocError>
    ensures { IfOk result (λ end. IsReached bindings.now visited.old
        (raised_tree term.entry) end visited.new) }
{
    let mut now = term;
    loop {
        match now.shape() {
            Shape::Variable(other) => match bindings.value(other) {
                Some(bound) => {
                    if bound.is_constant() {
                        return Ok(None);
                    }
                    if !visited.visit(other)? {
                        return Ok(None);
                    }
                    now = bound;
                }
                None => return Ok(Some(now)),
            },
            _ => return Ok(Some(now)),
        }
    }
}

/// Whether a free variable is what a term is bound to. Else the term's arguments are put on the stack, or the number
/// goes above its variable.
#[inline(always)]
fn look<'p>(
    bindings: &Bindings<'p>,
    variable: usize,
    term: RaisedTerm<'p>,
    above: &mut usize,
    stack: &mut Vec<Arguments<'p>>,
    visited: &mut Visited,
) -> Result<bool, AllocError>
    ensures above { OnOk result (above.old ≤ above.new) }
    ensures looked { IfOk result
        (λ found. IsLookedAt bindings.now variable (raised_tree term.entry) visited.old
        (raw_arguments stack.old.items) found above.new visited.new
        (raw_arguments stack.new.items)) }
    ensures weight { OnOk result (weight bindings.now (raw_arguments stack.new.items)
        ≤ weight bindings.now (raw_arguments stack.old.items) + nodes_of
        (full bindings.now (raised_tree term.entry))) }
{
    let Some(end) = reached(bindings, term, visited)? else {
        return Ok(false);
    };
    match end.shape() {
        Shape::Variable(other) => {
            if variable == other {
                return Ok(true);
            }
            *above = past(*above, other);
        }
        Shape::Integer(_) => {}
        Shape::Compound(_, args) => {
            if !args.is_empty() {
                let base = end.base;
                stack.push(Arguments { args, base })?;
            }
        }
    }
    Ok(false)
}

/// Looks at each of these arguments. Whether a free variable is what one of them is bound to.
fn look_at_all<'p>(
    bindings: &Bindings<'p>,
    variable: usize,
    next: Arguments<'p>,
    above: &mut usize,
    stack: &mut Vec<Arguments<'p>>,
    visited: &mut Visited,
) -> Result<bool, AllocError>
    ensures above { OnOk result (above.old ≤ above.new) }
    ensures looked { IfOk result
        (λ found. IsLookedAt bindings.now variable (arguments_tree next.entry) visited.old
        (raw_arguments stack.old.items) found above.new visited.new
        (raw_arguments stack.new.items)) }
    ensures weight { OnOk result
        (weight bindings.now (raw_arguments stack.new.items) < weight bindings.now
        (raw_arguments stack.old.items) + nodes_of
        (full bindings.now (arguments_tree next.entry))) }
{
    let base = next.base;
    for term in next.args {
        if look(
            bindings,
            variable,
            RaisedTerm { term, base },
            above,
            stack,
            visited,
        )? {
            return Ok(true);
        }
    }
    Ok(false)
}

/// Whether a free variable occurs in a term under the bindings, or else a number above all that occur. Each bound
/// variable is looked into once, and one that is bound to a constant not at all. Only arguments of compound terms are
/// put on the stack.
///
/// The stack and the visited variables may be any, and are used up.
#[inline(never)]
pub fn occurs_in<'p>(
    bindings: &Bindings<'p>,
    variable: usize,
    term: RaisedTerm<'p>,
    stack: &mut Vec<Arguments<'p>>,
    visited: &mut Visited,
) -> Result<Occurrence, AllocError>
    ensures { IfOk result (IsOccurrence variable (full bindings.now (raised_tree term.entry))) }
{
    stack.clear();
    visited.clear();
    let mut above = 0;
    if look(bindings, variable, term, &mut above, stack, visited)? {
        return Ok(Occurrence::Found);
    }
    while let Some(next) = stack.pop() {
        if look_at_all(bindings, variable, next, &mut above, stack, visited)? {
            return Ok(Occurrence::Found);
        }
    }
    Ok(Occurrence::Below(above))
}

/// A number above the variables of a leaf, and as great as the one given: of a constant, a variable that is bound to a
/// constant, or a free variable other than this one.
#[inline(always)]
fn past_leaf<'p>(
    bindings: &Bindings<'p>,
    variable: usize,
    term: RaisedTerm<'p>,
    above: usize,
) -> Option<usize>
    ensures greater { IfSome result (λ m. above ≤ m) }
    ensures flat { IfSome result (IsFlat bindings.now variable (raised_tree term.entry)) }
{
    let Shape::Variable(other) = term.shape() else {
        return if term.is_constant() {
            Some(above)
        } else {
            None
        };
    };
    match bindings.value(other) {
        Some(bound) => {
            if bound.is_constant() {
                return Some(above);
            }
            None
        }
        None => {
            if variable == other {
                return None;
            }
            Some(past(above, other))
        }
    }
}

/// A number above the variables of arguments that are leaves, where this variable is none of them.
fn above_leaves<'p>(
    bindings: &Bindings<'p>,
    variable: usize,
    arguments: Arguments<'p>,
) -> Option<usize>
    ensures { IfSome result (IsFlat bindings.now variable (arguments_tree arguments.entry)) }
{
    let base = arguments.base;
    let mut above = 0;
    for term in arguments.args {
        above = past_leaf(bindings, variable, RaisedTerm { term, base }, above)?;
    }
    Some(above)
}

/// A number above the variables of a leaf or a compound term of leaves, and as great as the one given.
#[inline(always)]
fn past_flat<'p>(
    bindings: &Bindings<'p>,
    variable: usize,
    term: RaisedTerm<'p>,
    above: usize,
) -> Option<usize>
    ensures greater { IfSome result (λ m. above ≤ m) }
    ensures flat { IfSome result (IsFlat bindings.now variable (raised_tree term.entry)) }
{
    if let Some(past) = past_leaf(bindings, variable, term, above) {
        return Some(past);
    }
    let met = bindings.met(term);
    let Shape::Compound(_, args) = met.shape else {
        return None;
    };
    let base = met.term.base;
    let inside = above_leaves(bindings, variable, Arguments { args, base })?;
    Some(above.max(inside))
}

/// A number above the variables of arguments, where each is flat and this variable is none of them.
#[inline(always)]
fn above_flat<'p>(
    bindings: &Bindings<'p>,
    variable: usize,
    arguments: Arguments<'p>,
) -> Option<usize>
    ensures { IfSome result (IsFlat bindings.now variable (arguments_tree arguments.entry)) }
{
    let base = arguments.base;
    let mut above = 0;
    for term in arguments.args {
        above = past_flat(bindings, variable, RaisedTerm { term, base }, above)?;
    }
    Some(above)
}

/// Whether a free variable occurs in a term under the bindings, or else a number above all that occur. Most terms that
/// are bound have flat arguments, which need no stack.
#[inline(always)]
pub fn look_for<'p>(
    bindings: &Bindings<'p>,
    variable: usize,
    term: RaisedTerm<'p>,
    stack: &mut Vec<Arguments<'p>>,
    visited: &mut Visited,
) -> Result<Occurrence, AllocError>
    ensures { IfOk result (IsOccurrence variable (full bindings.now (raised_tree term.entry))) }
{
    if let Shape::Compound(_, args) = term.shape() {
        let base = term.base;
        if let Some(above) = above_flat(bindings, variable, Arguments { args, base }) {
            return Ok(Occurrence::Below(above));
        }
    }
    occurs_in(bindings, variable, term, stack, visited)
}
