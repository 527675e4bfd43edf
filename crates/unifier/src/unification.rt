//! Unification over stored bindings, by a stack of equations.

ghost use Rattle.std.specs.Prelude.{true, false, ◌≡◌, ◌≤◌, ◌<◌, ◌^◌, ℕ, ◌++◌, IfOk, OnOk, MatchOption, List, [], ◌∷◌, length, vec_len, map};
ghost use Rattle.cti_terms.specs.Tree.{all_instances, Variable, Integer, Compound};
ghost use Rattle.cti_terms.specs.Spell.{trees_of};
ghost use Rattle.cti_terms.specs.Unify.{Binding, Equation, first_step, bound, occurs, pairs};
ghost use Rattle.cti_terms.specs.UnifyFunction.{unify};
ghost use Rattle.cti_terms.specs.Below.{TermBelow};
ghost use Rattle.unifier.specs.Raised.{raise, raised_tree};
ghost use Rattle.unifier.specs.Shapes.{IsMet};
ghost use Rattle.unifier.specs.Store.{stored, full, made, IsOpen};
ghost use Rattle.unifier.specs.Below.{LeftBelow};
ghost use Rattle.unifier.specs.Pending.{args_full, raw_equations, waiting, step_of, AgreeAs, IsFit, IsNext, IsUnified, StaysBelow, Extends, KeepsFree};
ghost use Rattle.unifier.specs.Remembered.{Entails, above, AreRemembered, AreRememberedAfter};

use crate::bindings::Bindings;
use crate::equal_pairs::EqualPairs;
use crate::occurs_check::{Arguments, Occurrence, look_for};
use crate::raised_term::{Met, RaisedTerm, Shape};
use crate::visited::Visited;
use cti_terms::{Name, Term};
use std::alloc::AllocError;

/// What the first equation asks for: nothing, a binding with a number above the variables of its term, the equations of
/// arguments in its place, or it fails.
#[derive(Clone, Copy, Drop)]
pub enum Found<'p> {
    Nothing,
    Binds(usize, RaisedTerm<'p>, usize),
    Arguments(&'p [Term], &'p [Term]),
    Clash,
}

/// What comes next: no equation is left, none of the rest can hold, or a binding is to be made.
#[derive(Clone, Copy, Drop)]
pub enum Next<'p> {
    Solved,
    Failed,
    Bound(usize, RaisedTerm<'p>, usize),
}

/// Puts the equations of arguments on the stack, the first one on top, as many as both sides have.
pub fn push_equations<'p>(
    stack: &mut Vec<(RaisedTerm<'p>, RaisedTerm<'p>)>,
    left: &'p [Term],
    left_base: u32,
    right: &'p [Term],
    right_base: u32,
) -> Result<(), AllocError>
    ensures { OnOk result (raw_equations stack.new.items
        ≡ pairs (all_instances (raise left_base) (trees_of left.now))
        (all_instances (raise right_base) (trees_of right.now))
        ++ raw_equations stack.old.items) }
{
    let mut i = left.len().min(right.len());
    while i > 0 {
        i -= 1;
        let equation = (
            RaisedTerm {
                term: &left[i],
                base: left_base,
            },
            RaisedTerm {
                term: &right[i],
                base: right_base,
            },
        );
        stack.push(equation)?;
    }
    Ok(())
}

/// Puts the equations of the arguments of two terms on the stack, and notes that the terms are being unified.
fn open_arguments<'p>(
    stack: &mut Vec<(RaisedTerm<'p>, RaisedTerm<'p>)>,
    known: &mut EqualPairs<'p>,
    terms: (RaisedTerm<'p>, RaisedTerm<'p>),
    left: &'p [Term],
    left_base: u32,
    right: &'p [Term],
    right_base: u32,
) -> Result<(), AllocError>
    ensures stack { OnOk result
        (raw_equations stack.new.items ≡ pairs (all_instances (raise left_base) (trees_of left.now))
        (all_instances (raise right_base) (trees_of right.now))
        ++ raw_equations stack.old.items) }
    ensures known { OnOk result ((s : List Binding) (es : List Equation)
        → Entails (above (length stack.old.items) es) (full s (raised_tree terms.entry.0))
        (full s (raised_tree terms.entry.1)) → AreRemembered s es known.old
        → AreRemembered s es known.new) }
{
    known.open(terms.0, terms.1, stack.len())?;
    push_equations(stack, left, left_base, right, right_base)?;
    Ok(())
}

/// What a free variable and a compound term under the bindings ask for. It is compiled into its callers, since what it
/// finds is then kept in registers.
#[inline(always)]
fn bound_or_clash<'p>(
    bindings: &Bindings<'p>,
    variable: usize,
    term: RaisedTerm<'p>,
    stack: &mut Vec<Arguments<'p>>,
    visited: &mut Visited,
) -> Result<Found<'p>, AllocError>
    requires small { variable < 2 ^ 33 }
    requires free { stored bindings.now variable ≡ None }
    requires followed { IsOpen bindings.now (raised_tree term) }
    ensures step { IfOk result (λ f. (n m : ℕ)
        → step_of bindings.now n m f
        ≡ bound variable (full bindings.now (raised_tree term.entry))) }
    ensures fit { IfOk result (IsFit bindings.now) }
{
    match look_for(bindings, variable, term, stack, visited)? {
        Occurrence::Found => Ok(Found::Clash),
        Occurrence::Below(above) => Ok(Found::Binds(variable, term, above)),
    }
}

/// What a free variable asks for, and a compound term whose variables are all below a limit: a variable from the limit
/// on does not occur in it.
#[inline(always)]
fn apart_or_bound<'p>(
    bindings: &Bindings<'p>,
    variable: usize,
    term: RaisedTerm<'p>,
    limit: usize,
    stack: &mut Vec<Arguments<'p>>,
    visited: &mut Visited,
) -> Result<Found<'p>, AllocError>
    requires below { TermBelow limit (full bindings.now (raised_tree term)) }
    requires small { variable < 2 ^ 33 }
    requires free { stored bindings.now variable ≡ None }
    requires followed { IsOpen bindings.now (raised_tree term) }
    ensures step { IfOk result (λ f. (n m : ℕ)
        → step_of bindings.now n m f
        ≡ bound variable (full bindings.now (raised_tree term.entry))) }
    ensures fit { IfOk result (IsFit bindings.now) }
{
    if limit <= variable {
        return Ok(Found::Binds(variable, term, limit));
    }
    bound_or_clash(bindings, variable, term, stack, visited)
}

/// Whether two compound terms have the same name and as many arguments.
#[inline(always)]
pub fn agree(f: Name, left: &[Term], g: Name, right: &[Term]) -> bool
    ensures { (s : List Binding) (n m : ℕ) → AgreeAs result
        (first_step (Compound f.0 (args_full s n left.now)) (Compound g.0 (args_full s m right.now)))
        (pairs (args_full s n left.now) (args_full s m right.now)) }
{
    if f.0 == g.0 && left.len() == right.len() {
        true
    } else {
        false
    }
}

/// What two compound terms ask for.
fn arguments_or_clash<'p>(f: Name, left: &'p [Term], g: Name, right: &'p [Term]) -> Found<'p>
    ensures step { (s : List Binding) (n m : ℕ)
        → step_of s n m result ≡ first_step (Compound f.0 (args_full s n left.now))
        (Compound g.0 (args_full s m right.now)) }
    ensures fit { (s : List Binding) → IsFit s result }
{
    if agree(f, left, g, right) {
        Found::Arguments(left, right)
    } else {
        Found::Clash
    }
}

/// What two integers ask for.
fn nothing_or_clash<'p>(m: i128, n: i128) -> Found<'p>
    ensures step { (s : List Binding) (i j : ℕ)
        → step_of s i j result ≡ first_step (Integer m) (Integer n) }
    ensures fit { (s : List Binding) → IsFit s result }
{
    if m == n { Found::Nothing } else { Found::Clash }
}

/// What two free variables ask for, of which the right one is this term.
fn nothing_or_bound<'p>(x: usize, y: usize, term: RaisedTerm<'p>) -> Found<'p>
    requires { y < 2 ^ 33 }
    ensures step { (s : List Binding) (i j : ℕ) → full s (raised_tree term.entry) ≡ Variable y
        → step_of s i j result ≡ first_step (Variable x) (Variable y) }
    ensures fit { (s : List Binding) → x < 2 ^ 33 → stored s x ≡ None
        → IsOpen s (raised_tree term.entry) → full s (raised_tree term.entry) ≡ Variable y
        → IsFit s result }
{
    if x == y {
        Found::Nothing
    } else {
        Found::Binds(x, term, y + 1)
    }
}

/// What an equation of two terms asks for, of which the left one has variables below the limit alone.
#[inline(always)]
pub fn step<'p>(
    bindings: &Bindings<'p>,
    left: Met<'p>,
    right: Met<'p>,
    limit: usize,
    stack: &mut Vec<Arguments<'p>>,
    visited: &mut Visited,
) -> Result<Found<'p>, AllocError>
    requires below { TermBelow limit (full bindings.now (raised_tree left.term)) }
    requires left { IsMet bindings.now left }
    requires right { IsMet bindings.now right }
    ensures step { IfOk result
        (λ f. step_of bindings.now left.entry.term.base right.entry.term.base f
        ≡ first_step (full bindings.now (raised_tree left.entry.term))
        (full bindings.now (raised_tree right.entry.term))) }
    ensures fit { IfOk result (IsFit bindings.now) }
{
    match (left.shape, right.shape) {
        (Shape::Variable(x), Shape::Variable(y)) => Ok(nothing_or_bound(x, y, right.term)),
        (Shape::Variable(x), Shape::Integer(_)) => Ok(Found::Binds(x, right.term, 0)),
        (Shape::Variable(x), Shape::Compound(_, _)) => {
            bound_or_clash(bindings, x, right.term, stack, visited)
        }
        (Shape::Integer(_), Shape::Variable(y)) => Ok(Found::Binds(y, left.term, 0)),
        (Shape::Integer(m), Shape::Integer(n)) => Ok(nothing_or_clash(*m, *n)),
        (Shape::Integer(_), Shape::Compound(_, _)) => Ok(Found::Clash),
        (Shape::Compound(_, _), Shape::Variable(y)) => {
            apart_or_bound(bindings, y, left.term, limit, stack, visited)
        }
        (Shape::Compound(_, _), Shape::Integer(_)) => Ok(Found::Clash),
        (Shape::Compound(f, ts), Shape::Compound(g, us)) => Ok(arguments_or_clash(f, ts, g, us)),
    }
}

/// Goes on to the next binding. An equation of two terms that are known to be equal is passed over.
fn next_binding<'p>(
    bindings: &Bindings<'p>,
    equations: &mut Vec<(RaisedTerm<'p>, RaisedTerm<'p>)>,
    pairs: &mut EqualPairs<'p>,
    limit: usize,
    stack: &mut Vec<Arguments<'p>>,
    visited: &mut Visited,
) -> Result<Next<'p>, AllocError>
    requires left { LeftBelow limit (waiting bindings.now equations.old.items) }
    requires pairs { AreRemembered bindings.now
        (waiting bindings.now equations.old.items) pairs.old }
    ensures left { OnOk result (LeftBelow limit (waiting bindings.now equations.new.items)) }
    ensures next { IfOk result
        (λ n. IsNext bindings.now (waiting bindings.now equations.old.items) n
        (waiting bindings.now equations.new.items)) }
    ensures pairs { IfOk result
        (λ n. AreRememberedAfter bindings.now n equations.new.items pairs.new) }
{
    while let Some((l, r)) = equations.pop() {
        let below = equations.len();
        if pairs.know(l, r, below)? {
            continue;
        }
        let left = bindings.met(l);
        let right = bindings.met(r);
        match step(bindings, left, right, limit, stack, visited)? {
            Found::Nothing => {}
            Found::Binds(x, term, above) => return Ok(Next::Bound(x, term, above)),
            Found::Arguments(ts, us) => {
                open_arguments(
                    equations,
                    pairs,
                    (l, r),
                    ts,
                    left.term.base,
                    us,
                    right.term.base,
                )?;
            }
            Found::Clash => return Ok(Next::Failed),
        }
    }
    Ok(Next::Solved)
}

/// Unifies the equations on the stack, by bindings that are added. Where it fails, some may have been added.
///
/// Left sides have variables below the limit alone. The limit goes up with the bindings, so that this stays true, also
/// of equations that are not on the stack.
pub fn solve<'p>(
    bindings: &mut Bindings<'p>,
    equations: &mut Vec<(RaisedTerm<'p>, RaisedTerm<'p>)>,
    pairs: &mut EqualPairs<'p>,
    limit: &mut usize,
    stack: &mut Vec<Arguments<'p>>,
    visited: &mut Visited,
) -> Result<bool, AllocError>
    requires { LeftBelow limit.old (waiting bindings.old equations.old.items) }
    ensures unifier { IfOk result
        (IsUnified (made bindings.old) (waiting bindings.old equations.old.items)
        (made bindings.new)) }
    ensures limit { OnOk result (StaysBelow limit.old bindings.old limit.new bindings.new) }
    ensures extended { OnOk result (Extends bindings.new bindings.old) }
    ensures free { OnOk result
        (KeepsFree (waiting bindings.old equations.old.items) bindings.old bindings.new) }
{
    pairs.clear();
    loop {
        match next_binding(bindings, equations, pairs, *limit, stack, visited)? {
            Next::Solved => return Ok(true),
            Next::Failed => return Ok(false),
            Next::Bound(x, term, above) => {
                *limit = (*limit).max(above);
                bindings.bind(x, term)?;
            }
        }
    }
}
