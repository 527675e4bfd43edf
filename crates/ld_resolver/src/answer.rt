//! Answers.

ghost use Rattle.std.specs.Prelude.{◌≡◌, ◌+◌, ◌≤◌, ◌<◌, ◌^◌, ◌++◌, List, ℕ, IfOk, OnOk, nat_lt, map, length};
ghost use Rattle.std.specs.Prelude.{nat_eq};
ghost use Rattle.std.specs.List.{position_or_len};
ghost use Rattle.cti_terms.specs.Tree.{Tree, trees, all_nodes, nodes_of};
ghost use Rattle.cti_terms.specs.Spell.{tree_of, trees_of};
ghost use Rattle.cti_terms.specs.Resolve.{over};
ghost use Rattle.cti_terms.specs.Answers.{depth_of, greatest_depth, with_variable, met, all_met, numbered_by, numbered_atoms};
ghost use Rattle.unifier.specs.Raised.{raised_tree};
ghost use Rattle.unifier.specs.Shapes.{IsMet};
ghost use Rattle.unifier.specs.Store.{full};
ghost use Rattle.unifier.specs.Pending.{raw, weight, args_full};
ghost use Rattle.ld_resolver.specs.Measured.{all_numbered_by, answered_atoms, answered_terms, all_arguments};
ghost use Rattle.ld_resolver.specs.Told.{told};

use cti_terms::{Atom, Atoms, MOST_ANSWER_DEPTH, MOST_ANSWER_NODES, Term, Terms};
use indexmap::IndexSet;
use std::alloc::{AllocError, Global};
use unifier::bindings::Bindings;
use unifier::occurs_check::push_arguments;
use unifier::raised_term::{Met, RaisedTerm, Shape};

/// An answer: the query's atoms as a derivation leaves them, or that they are too large to be reported.
#[derive(Drop)]
pub enum Answer {
    /// The atoms, with their variables numbered from 0 by first occurrence.
    Atoms(Atoms),

    /// The atoms have more than `MOST_ANSWER_NODES` nodes or a greater depth than `MOST_ANSWER_DEPTH`.
    Large,
}

/// Puts the arguments of the query's atoms on the stack.
fn push_query<'p>(stack: &mut Vec<RaisedTerm<'p>>, query: &'p [Atom]) -> Result<(), AllocError>
    ensures { OnOk result (raw stack.new.items ≡ raw stack.old.items ++ all_arguments query.now) }
{
    for atom in query {
        push_arguments(stack, atom.args.as_slice(), 0)?;
    }
    Ok(())
}

/// Puts the arguments of a term on the stack, where it has any.
fn push_parts<'p>(
    bindings: &Bindings<'p>,
    met: Met<'p>,
    stack: &mut Vec<RaisedTerm<'p>>,
) -> Result<(), AllocError>
    requires { IsMet bindings.now met }
    ensures { OnOk result (weight bindings.now (raw stack.new.items) + 1
        ≡ weight bindings.now (raw stack.old.items) + nodes_of
        (full bindings.now (raised_tree met.entry.term))) }
{
    let _ = bindings;
    match met.shape {
        Shape::Variable(_) => Ok(()),
        Shape::Integer(_) => Ok(()),
        Shape::Compound(_, args) => {
            push_arguments(stack, args, met.term.base)?;
            Ok(())
        }
    }
}

/// Whether the query's atoms have too many nodes together, of which no more are counted than that takes.
fn has_many_nodes<'p>(
    bindings: &Bindings<'p>,
    query: &'p [Atom],
    stack: &mut Vec<RaisedTerm<'p>>,
) -> Result<bool, AllocError>
    ensures { IfOk result (λ many. many ≡ nat_lt MOST_ANSWER_NODES
        (all_nodes (answered_terms bindings.now query.now))) }
{
    let mut nodes = query.len();
    if nodes > MOST_ANSWER_NODES as usize {
        return Ok(true);
    }
    stack.clear();
    push_query(stack, query)?;
    while let Some(next) = stack.pop() {
        nodes += 1;
        if nodes > MOST_ANSWER_NODES as usize {
            return Ok(true);
        }
        push_parts(bindings, bindings.met(next), stack)?;
    }
    Ok(false)
}

/// Whether a term is too deep under the given number of levels. It looks no deeper than that takes.
fn is_deep<'p>(bindings: &Bindings<'p>, term: RaisedTerm<'p>, above: u32) -> bool
    requires { above ≤ MOST_ANSWER_DEPTH }
    ensures { result ≡ nat_lt MOST_ANSWER_DEPTH
        (above + depth_of (full bindings.now (raised_tree term.entry))) }
{
    if above == MOST_ANSWER_DEPTH {
        return true;
    }
    let met = bindings.met(term);
    match met.shape {
        Shape::Variable(_) => false,
        Shape::Integer(_) => false,
        Shape::Compound(_, args) => {
            let base = met.term.base;
            for term in args {
                if is_deep(bindings, RaisedTerm { term, base }, above + 1) {
                    return true;
                }
            }
            false
        }
    }
}

/// Whether one of an atom's arguments is too deep.
fn has_deep_argument<'p>(bindings: &Bindings<'p>, args: &'p [Term]) -> bool
    ensures { result ≡ nat_lt MOST_ANSWER_DEPTH
        (1 + greatest_depth (args_full bindings.now 0 args.now)) }
{
    for term in args {
        if is_deep(bindings, RaisedTerm { term, base: 0 }, 1) {
            return true;
        }
    }
    false
}

/// Whether one of the query's atoms is too deep.
fn has_deep_atom<'p>(bindings: &Bindings<'p>, query: &'p [Atom]) -> bool
    ensures { result ≡ nat_lt MOST_ANSWER_DEPTH
        (greatest_depth (answered_terms bindings.now query.now)) }
{
    for atom in query {
        if has_deep_argument(bindings, atom.args.as_slice()) {
            return true;
        }
    }
    false
}

/// The number of a variable: its place among those that were met, to which it is added where it is new.
fn number_of(variables: &mut IndexSet<usize>, variable: usize) -> Result<u32, AllocError>
    requires { length variables.old.keys + 1 < 2 ^ 32 }
    ensures variables { OnOk result
        (variables.new.keys ≡ with_variable variables.old.keys variable) }
    ensures number { IfOk result (λ n. n ≡ position_or_len (nat_eq variable) variables.old.keys) }
{
    let (number, _) = variables.insert_full(variable)?;
    Ok(number as u32)
}

/// A term under the bindings, with its variables numbered by first occurrence.
#[cycle(told)]
fn told_term<'p>(
    alloc: Global,
    bindings: &Bindings<'p>,
    term: RaisedTerm<'p>,
    variables: &mut IndexSet<usize>,
) -> Result<Term, AllocError>
    requires { length variables.old.keys + nodes_of
        (full bindings.now (raised_tree term)) < 2 ^ 32 }
    ensures variables { OnOk result
        (variables.new.keys ≡ met variables.old.keys (full bindings.now (raised_tree term.entry))) }
    ensures term { IfOk result (λ u. (more : List ℕ)
        → tree_of u ≡ numbered_by (variables.new.keys ++ more)
        (full bindings.now (raised_tree term.entry))) }
{
    let met = bindings.met(term);
    match met.shape {
        Shape::Variable(x) => Ok(Term::Var(number_of(variables, x)?)),
        Shape::Integer(n) => Ok(Term::Int(*n)),
        Shape::Compound(f, args) => {
            let terms = told_terms(alloc, bindings, args, met.term.base, variables)?;
            Ok(Term::Fun(f, terms))
        }
    }
}

/// Arguments under the bindings, with their variables numbered by first occurrence.
#[cycle(told)]
fn told_terms<'p>(
    alloc: Global,
    bindings: &Bindings<'p>,
    args: &'p [Term],
    base: u32,
    variables: &mut IndexSet<usize>,
) -> Result<Vec<Term>, AllocError>
    requires { length variables.old.keys + all_nodes
        (args_full bindings.now base args.now) < 2 ^ 32 }
    ensures variables { OnOk result
        (variables.new.keys ≡ all_met variables.old.keys (args_full bindings.now base args.now)) }
    ensures terms { IfOk result (λ us. (more : List ℕ)
        → trees_of us.items ≡ all_numbered_by (variables.new.keys ++ more)
        (args_full bindings.now base args.now)) }
{
    let mut terms = Vec::new(alloc);
    for term in args {
        terms.push(told_term(alloc, bindings, RaisedTerm { term, base }, variables)?)?;
    }
    Ok(terms)
}

/// An atom of the query under the bindings, with its variables numbered by first occurrence.
fn told_atom<'p>(
    alloc: Global,
    bindings: &Bindings<'p>,
    atom: &'p Atom,
    variables: &mut IndexSet<usize>,
) -> Result<Atom, AllocError>
    requires { length variables.old.keys + all_nodes
        (trees (map (full bindings.now) atom.now.args)) < 2 ^ 32 }
    ensures variables { OnOk result
        (variables.new.keys ≡ all_met variables.old.keys
        (trees (map (full bindings.now) atom.now.args))) }
    ensures atom { IfOk result (λ a. (more : List ℕ)
        → a ≡ over (numbered_by (variables.new.keys ++ more))
        (over (full bindings.now) atom.now)) }
{
    let terms = told_terms(alloc, bindings, atom.args.as_slice(), 0, variables)?;
    Ok(Atom {
        pred: atom.pred,
        args: Terms::from_vec(terms),
    })
}

/// The query's atoms under the bindings, with their variables numbered by first occurrence.
fn told_query<'p>(
    alloc: Global,
    bindings: &Bindings<'p>,
    query: &'p [Atom],
) -> Result<Atoms, AllocError>
    requires { all_nodes (answered_terms bindings.now query.now) < 2 ^ 32 }
    ensures { IfOk result (λ atoms. atoms
        ≡ numbered_atoms (answered_atoms bindings.now query.now)) }
{
    let mut variables = IndexSet::new(alloc);
    let mut atoms = Atoms::new(alloc);
    for atom in query {
        atoms.push(told_atom(alloc, bindings, atom, &mut variables)?)?;
    }
    Ok(atoms)
}

/// The answer that the bindings give of a query. The stack may hold anything, and is used up.
pub fn make_answer<'p>(
    alloc: Global,
    bindings: &Bindings<'p>,
    query: &'p [Atom],
    stack: &mut Vec<RaisedTerm<'p>>,
) -> Result<Answer, AllocError>
    ensures { IfOk result (λ a. a ≡ told (answered_atoms bindings.now query.now)) }
{
    if has_many_nodes(bindings, query, stack)? {
        return Ok(Answer::Large);
    }
    if has_deep_atom(bindings, query) {
        return Ok(Answer::Large);
    }
    Ok(Answer::Atoms(told_query(alloc, bindings, query)?))
}
