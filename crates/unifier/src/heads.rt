//! Unification of an atom with the head of a clause.

ghost use Rattle.std.specs.Prelude.{◌≡◌, ◌≤◌, ◌<◌, ◌+◌, ◌++◌, [], ◌∷◌, IfOk, OnOk, length, map};
ghost use Rattle.std.specs.List.{AllByRecursion};
ghost use Rattle.cti_terms.specs.Tree.{is_below};
ghost use Rattle.cti_terms.specs.Resolve.{over, raised, head_equations};
ghost use Rattle.cti_terms.specs.Below.{TermBelow, ArgumentsBelow};
ghost use Rattle.unifier.specs.Store.{full, made};
ghost use Rattle.unifier.specs.Heads.{IsIntegerTree, IsPairUnified};
ghost use Rattle.unifier.specs.Shapes.{IsMet};
ghost use Rattle.unifier.specs.Raised.{raised_tree};
ghost use Rattle.unifier.specs.Pending.{IsUnified, StaysBelow, Extends, KeepsFree, waiting_from};
ghost use Rattle.unifier.specs.Below.{LeftBelow, FreeFrom};

use crate::bindings::Bindings;
use crate::equal_pairs::EqualPairs;
use crate::occurs_check::Arguments;
use crate::raised_term::{Met, RaisedTerm, Shape};
use crate::unification::{Found, agree, push_equations, solve, step};
use crate::visited::Visited;
use cti_terms::{Atom, Clause};
use std::alloc::{AllocError, Global};

/// Stacks that are used again from one attempt to the next.
pub struct Stacks<'p> {
    equations: Vec<(RaisedTerm<'p>, RaisedTerm<'p>)>,
    pairs: EqualPairs<'p>,
    arguments: Vec<Arguments<'p>>,
    pub terms: Vec<RaisedTerm<'p>>,
    visited: Visited,
}

impl Drop for Stacks<'_> {
    fn drop(self) {
        let Stacks {
            equations: _,
            pairs: _,
            arguments: _,
            terms: _,
            visited: _,
        } = self;
    }
}

impl<'p> Stacks<'p> {
    /// Empty stacks. It takes no memory.
    pub fn new(alloc: Global) -> Stacks<'p> {
        Stacks {
            equations: Vec::new(alloc),
            pairs: EqualPairs::new(alloc),
            arguments: Vec::new(alloc),
            terms: Vec::new(alloc),
            visited: Visited::new(alloc),
        }
    }
}

/// Unifies two terms that are not bound variables, by bindings that are added. Where it fails, some may have been
/// added. Only where two compound terms meet are equations put on a stack.
///
/// The left term has variables below the limit alone, and the limit goes up with the bindings.
#[inline(always)]
fn unify_met<'p>(
    bindings: &mut Bindings<'p>,
    stacks: &mut Stacks<'p>,
    left: Met<'p>,
    right: Met<'p>,
    limit: &mut usize,
) -> Result<bool, AllocError>
    requires below { TermBelow limit.old (full bindings.old (raised_tree left.term)) }
    requires left { IsMet bindings.old left }
    requires right { IsMet bindings.old right }
    ensures unified { IfOk result
        (IsPairUnified bindings.old left.entry.term right.entry.term bindings.new) }
    ensures limit { OnOk result (StaysBelow limit.old bindings.old limit.new bindings.new) }
{
    match step(
        bindings,
        left,
        right,
        *limit,
        &mut stacks.arguments,
        &mut stacks.visited,
    )? {
        Found::Nothing => Ok(true),
        Found::Binds(x, term, above) => {
            *limit = (*limit).max(above);
            bindings.bind(x, term)?;
            Ok(true)
        }
        Found::Arguments(ts, us) => {
            stacks.equations.clear();
            push_equations(
                &mut stacks.equations,
                ts,
                left.term.base,
                us,
                right.term.base,
            )?;
            let solved = solve(
                bindings,
                &mut stacks.equations,
                &mut stacks.pairs,
                limit,
                &mut stacks.arguments,
                &mut stacks.visited,
            )?;
            Ok(solved)
        }
        Found::Clash => Ok(false),
    }
}

/// Unifies two terms. Few terms of heads that come here are integers or variables that are bound by now, so it is not
/// compiled into its callers.
#[inline(never)]
fn unify_any<'p>(
    bindings: &mut Bindings<'p>,
    stacks: &mut Stacks<'p>,
    left: RaisedTerm<'p>,
    right: RaisedTerm<'p>,
    limit: &mut usize,
) -> Result<bool, AllocError>
    requires { TermBelow limit.old (full bindings.old (raised_tree left)) }
    ensures unified { IfOk result
        (IsPairUnified bindings.old left.entry right.entry bindings.new) }
    ensures limit { OnOk result (StaysBelow limit.old bindings.old limit.new bindings.new) }
{
    let l = bindings.met(left);
    let r = bindings.met(right);
    let unified = unify_met(bindings, stacks, l, r, limit)?;
    Ok(unified)
}

/// Unifies two terms, of which the right one is no compound term of a head, and most often a free variable.
#[inline(always)]
fn unify_variable<'p>(
    bindings: &mut Bindings<'p>,
    stacks: &mut Stacks<'p>,
    left: RaisedTerm<'p>,
    right: RaisedTerm<'p>,
    limit: &mut usize,
) -> Result<bool, AllocError>
    requires { TermBelow limit.old (full bindings.old (raised_tree left)) }
    ensures unified { IfOk result
        (IsPairUnified bindings.old left.entry right.entry bindings.new) }
    ensures limit { OnOk result (StaysBelow limit.old bindings.old limit.new bindings.new) }
{
    if let Some(r) = bindings.met_free(right) {
        let l = bindings.met(left);
        let free = unify_met(bindings, stacks, l, r, limit)?;
        return Ok(free);
    }
    let unified = unify_any(bindings, stacks, left, right, limit)?;
    Ok(unified)
}

/// Unifies two arguments of compound terms. The kind of the right one, which is a term of a head, is asked first: it is
/// most often known without a look at the bindings.
#[inline(always)]
fn unify_parts<'p>(
    bindings: &mut Bindings<'p>,
    stacks: &mut Stacks<'p>,
    left: RaisedTerm<'p>,
    right: RaisedTerm<'p>,
    limit: &mut usize,
) -> Result<bool, AllocError>
    requires { TermBelow limit.old (full bindings.old (raised_tree left)) }
    ensures unified { IfOk result
        (IsPairUnified bindings.old left.entry right.entry bindings.new) }
    ensures limit { OnOk result (StaysBelow limit.old bindings.old limit.new bindings.new) }
{
    if let Some(r) = right.met_compound() {
        let l = bindings.met(left);
        let compound = unify_met(bindings, stacks, l, r, limit)?;
        return Ok(compound);
    }
    let unified = unify_variable(bindings, stacks, left, right, limit)?;
    Ok(unified)
}

/// Unifies the arguments of two compound terms, one pair after the other, so that most are never put on a stack.
///
/// The left arguments have variables below the limit alone, and the limit goes up with the bindings.
#[inline(always)]
fn unify_arguments<'p>(
    bindings: &mut Bindings<'p>,
    stacks: &mut Stacks<'p>,
    left: Arguments<'p>,
    right: Arguments<'p>,
    limit: &mut usize,
) -> Result<bool, AllocError>
    requires { LeftBelow limit.old (waiting_from bindings.old left.base right.base left.args.now right.args.now 0) }
    ensures unifier { IfOk result
        (IsUnified (made bindings.old)
        (waiting_from bindings.old left.entry.base right.entry.base left.entry.args.now right.entry.args.now 0)
        (made bindings.new)) }
    ensures limit { OnOk result (StaysBelow limit.old bindings.old limit.new bindings.new) }
    ensures extended { OnOk result (Extends bindings.new bindings.old) }
    ensures free { OnOk result
        (KeepsFree
        (waiting_from bindings.old left.entry.base right.entry.base left.entry.args.now right.entry.args.now 0)
        bindings.old bindings.new) }
{
    let count = left.args.len().min(right.args.len());
    let mut i = 0;
    while i < count {
        let l = RaisedTerm {
            term: &left.args[i],
            base: left.base,
        };
        let r = RaisedTerm {
            term: &right.args[i],
            base: right.base,
        };
        if !unify_parts(bindings, stacks, l, r, limit)? {
            return Ok(false);
        }
        i += 1;
    }
    Ok(true)
}

/// Unifies two terms that are not bound variables. The arguments of compound terms are unified one after the other.
#[inline(always)]
fn unify_compounds<'p>(
    bindings: &mut Bindings<'p>,
    stacks: &mut Stacks<'p>,
    left: Met<'p>,
    right: Met<'p>,
    limit: &mut usize,
) -> Result<bool, AllocError>
    requires below { TermBelow limit.old (full bindings.old (raised_tree left.term)) }
    requires left { IsMet bindings.old left }
    requires right { IsMet bindings.old right }
    ensures unified { IfOk result
        (IsPairUnified bindings.old left.entry.term right.entry.term bindings.new) }
    ensures limit { OnOk result (StaysBelow limit.old bindings.old limit.new bindings.new) }
{
    match (left.shape, right.shape) {
        (Shape::Compound(f, ts), Shape::Compound(g, us)) => {
            if !agree(f, ts, g, us) {
                return Ok(false);
            }
            let l = Arguments {
                args: ts,
                base: left.term.base,
            };
            let r = Arguments {
                args: us,
                base: right.term.base,
            };
            let unified = unify_arguments(bindings, stacks, l, r, limit)?;
            Ok(unified)
        }
        _ => {
            let unified = unify_met(bindings, stacks, left, right, limit)?;
            Ok(unified)
        }
    }
}

/// Unifies two terms, of which the right one is a term of a head.
#[inline(always)]
fn unify_terms<'p>(
    bindings: &mut Bindings<'p>,
    stacks: &mut Stacks<'p>,
    left: RaisedTerm<'p>,
    right: RaisedTerm<'p>,
    limit: &mut usize,
) -> Result<bool, AllocError>
    requires { TermBelow limit.old (full bindings.old (raised_tree left)) }
    ensures unified { IfOk result
        (IsPairUnified bindings.old left.entry right.entry bindings.new) }
    ensures limit { OnOk result (StaysBelow limit.old bindings.old limit.new bindings.new) }
{
    if let Some(r) = right.met_compound() {
        let l = bindings.met(left);
        let compound = unify_compounds(bindings, stacks, l, r, limit)?;
        return Ok(compound);
    }
    let unified = unify_variable(bindings, stacks, left, right, limit)?;
    Ok(unified)
}

/// Unifies a term, which has variables below the limit alone, with an integer, by a binding that is added if one is
/// needed.
///
/// No equations of arguments come up. So `solve` is called from `unify_met` alone.
pub fn unify_integer<'p>(
    bindings: &mut Bindings<'p>,
    stacks: &mut Stacks<'p>,
    left: RaisedTerm<'p>,
    right: RaisedTerm<'p>,
    limit: usize,
) -> Result<bool, AllocError>
    requires below { TermBelow limit (full bindings.old (raised_tree left)) }
    requires integer { IsIntegerTree (raised_tree right) }
    ensures unifier { IfOk result
        (IsUnified (made bindings.old)
        ((
          full bindings.old (raised_tree left.entry),
          full bindings.old
              (raised_tree right.entry),
        ) ∷ []) (made bindings.new)) }
    ensures extended { OnOk result (Extends bindings.new bindings.old) }
    ensures free { OnOk result
        (KeepsFree ((
          full bindings.old (raised_tree left.entry),
          full bindings.old
              (raised_tree right.entry),
        ) ∷ []) bindings.old bindings.new) }
{
    let l = bindings.met(left);
    let r = bindings.met(right);
    match step(
        bindings,
        l,
        r,
        limit,
        &mut stacks.arguments,
        &mut stacks.visited,
    )? {
        Found::Nothing => Ok(true),
        Found::Binds(x, term, _) => {
            bindings.bind(x, term)?;
            Ok(true)
        }
        Found::Arguments(_, _) => Ok(false),
        Found::Clash => Ok(false),
    }
}

/// Unifies an atom, whose variables are raised by its base, with the head of a clause, whose variables are raised by a
/// goal's counter. Arguments of compound terms are unified one after the other too. Only where two compound terms meet
/// among these are equations put on a stack, and they are solved before the next argument.
pub fn unify_head<'p>(
    bindings: &mut Bindings<'p>,
    stacks: &mut Stacks<'p>,
    atom: &'p Atom,
    base: u32,
    fresh: u32,
    clause: &'p Clause,
) -> Result<bool, AllocError>
    requires free { FreeFrom fresh bindings.old }
    requires below { ArgumentsBelow fresh (over (full bindings.old) (raised base atom.now)).args }
    ensures unifier { IfOk result
        (IsUnified (made bindings.old)
        (head_equations (over (full bindings.old) (raised base atom.now)) fresh clause.now)
        (made bindings.new)) }
    ensures extended { OnOk result (Extends bindings.new bindings.old) }
    ensures free { OnOk result
        (KeepsFree (head_equations
        (over (full bindings.old)
        (raised base atom.now)) fresh clause.now) bindings.old bindings.new) }
{
    let left = atom.args.as_slice();
    let right = clause.head.args.as_slice();
    let count = left.len().min(right.len());
    let mut limit = fresh as usize;
    let mut i = 0;
    while i < count {
        let l = RaisedTerm {
            term: &left[i],
            base,
        };
        let r = RaisedTerm {
            term: &right[i],
            base: fresh,
        };
        if !unify_terms(bindings, stacks, l, r, &mut limit)? {
            return Ok(false);
        }
        i += 1;
    }
    Ok(true)
}
