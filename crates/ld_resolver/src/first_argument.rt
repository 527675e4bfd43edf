//! Clauses that cannot match a goal, by the kinds of its first argument and of theirs.

ghost use Rattle.std.specs.Prelude.{◌≡◌, ℕ, ◌≤◌, IsTrue, IfSome, None, length};
ghost use Rattle.cti_terms.specs.Arithmetic.{kind_of};
ghost use Rattle.cti_terms.specs.Listing.{Listing};
ghost use Rattle.cti_terms.specs.Resolve.{raised};
ghost use Rattle.ld_resolver.specs.Chain.{IsChain, IsNext};
ghost use Rattle.ld_resolver.specs.FirstArguments.{HasFirst, RulesOut, IsSkipped, IsNextMatch};

use crate::clause_chain::ClauseChain;
use crate::first_kind::FirstKind;
use cti_terms::{Atom, Name, Program, Term};
use unifier::bindings::Bindings;
use unifier::raised_term::{RaisedTerm, Shape};

/// Whether compound terms differ in their names or in their numbers of arguments.
fn compounds_differ(f: Name, args: &[Term], g: Name, count: usize) -> bool
    ensures { IsTrue result → ¬ ((f.0 ≡ g.0) × (length args.now ≡ count)) }
{
    if f.0 == g.0 && args.len() == count {
        return false;
    }
    true
}

/// Whether a clause whose first argument has this kind cannot match a goal with a first argument of that kind. A
/// variable rules nothing out.
#[inline(always)]
fn is_ruled_out(shape: Shape<'_>, kind: FirstKind) -> bool
    ensures { IsTrue result → RulesOut shape.entry kind }
{
    match (shape, kind) {
        (Shape::Integer(m), FirstKind::Integer(n)) => *m != n,
        (Shape::Integer(_), FirstKind::Compound(_, _)) => true,
        (Shape::Compound(_, _), FirstKind::Integer(_)) => true,
        (Shape::Compound(f, ts), FirstKind::Compound(g, count)) => compounds_differ(
            f, ts, g, count,
        ),
        _ => false,
    }
}

/// Whether there is a clause of this number, and it cannot match such a goal.
#[inline(always)]
fn is_skipped(chain: &ClauseChain, shape: Shape<'_>, number: u32) -> bool
    requires { 1 ≤ number }
    ensures { IsTrue result → (p : Listing) → IsChain p chain.now
        → (fresh : ℕ) → IsSkipped p fresh shape.entry number }
{
    match chain.kind(number) {
        Some(kind) => is_ruled_out(shape, kind),
        None => false,
    }
}

/// The kind of an atom's first argument under the bindings, where it has one.
#[inline(always)]
fn first_shape<'p>(bindings: &Bindings<'p>, atom: &'p Atom, base: u32) -> Option<Shape<'p>>
    ensures { IfSome result (HasFirst bindings.now (raised base atom.now)) }
{
    let term = atom.args.as_slice().first()?;
    Some(bindings.met(RaisedTerm { term, base }).shape)
}

/// The number of the first clause, from this one of the atom's predicate on, whose first argument can match the atom's.
/// One past the last clause stands for none. It ends at once after a last clause, so it is compiled into its callers.
#[inline(always)]
pub fn next_match<'p>(
    program: &Program,
    chain: &ClauseChain,
    bindings: &Bindings<'p>,
    atom: &'p Atom,
    base: u32,
    next: u32,
) -> u32
    requires chain { IsChain program.now chain.now }
    requires next { 1 ≤ next }
    requires ordinary { kind_of program.now.arithmetic atom.now.pred.0 ≡ None }
    ensures { (fresh k : ℕ) → IsNext program.now atom.now.pred.0 k next
        → IsNextMatch program.now bindings.now (raised base atom.now) fresh k result }
{
    let mut number = next;
    if program.clauses() < number {
        return number;
    }
    if let Some(shape) = first_shape(bindings, atom, base) {
        while is_skipped(chain, shape, number) {
            number = chain.after(number);
        }
    }
    number
}
