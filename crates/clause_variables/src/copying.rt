//! Terms with their variables numbered anew.

ghost use Rattle.std.specs.Prelude.{◌≡◌, ◌<◌, ◌≤◌, ◌+◌, ◌^◌, length, map, nat_eq, position, sum_by, IfOk};
ghost use Rattle.std.specs.List.{position_or_len};
ghost use Rattle.cti_terms.specs.Spell.{tree_of};
ghost use Rattle.cti_terms.specs.Tree.{Variable, nodes_of};
ghost use Rattle.clause_variables.specs.Terms.{renumbered};
ghost use Rattle.clause_variables.specs.TermViews.{plain_of, args_of};

use crate::args::Args;
use cti_terms::{Term, Terms};
use prolog_reader::{ReadShape, ReadTerm};
use std::alloc::{AllocError, Global};

/// The place of a variable in an order, where it is there.
fn position_in(order: &[u32], x: u32) -> Option<usize>
    ensures { result ≡ position (nat_eq x) order.now }
{
    order.iter().position(|y| x == *y)
}

/// The place of a variable in an order, or the length of the order.
fn place_in(order: &[u32], x: u32) -> u32
    requires { length order.now < 2 ^ 32 }
    ensures { result ≡ position_or_len (nat_eq x) order.now }
{
    match position_in(order, x) {
        Some(place) => place as u32,
        None => order.len() as u32,
    }
}

/// A variable numbered by its place in an order.
fn copied_variable(order: &[u32], x: u32) -> Term
    requires { length order.now < 2 ^ 32 }
    ensures { tree_of result ≡ Variable (position_or_len (nat_eq x) order.now) }
{
    Term::Var(place_in(order, x))
}

/// How many nodes may still be made. A clause with more of them than a program's clauses have does not fit into memory.
fn take_node(left: &mut u32) -> Result<(), AllocError>
    ensures { IfOk result (λ _. left.old ≡ left.new + 1) }
{
    if *left == 0 {
        return Err(AllocError);
    }
    *left -= 1;
    Ok(())
}

/// A term with its variables numbered by their places in an order. It goes down the term, which is no deeper than a
/// reader allows.
fn copied(alloc: Global, term: &ReadTerm, order: &[u32], left: &mut u32) -> Result<Term, AllocError>
    requires { length order.now < 2 ^ 32 }
    ensures term { IfOk result (λ t. tree_of t ≡ renumbered order.now (plain_of term.now)) }
    ensures nodes { IfOk result (λ t. left.old ≡ left.new + nodes_of (tree_of t)) }
{
    take_node(left)?;
    match &term.shape {
        ReadShape::Var(x) => Ok(copied_variable(order, *x)),
        ReadShape::Int(n) => Ok(Term::Int(*n)),
        ReadShape::Fun(name, args) => {
            let mut copies = Terms::new(alloc);
            'each: for arg in args {
                let copy = copied(alloc, arg, order, left)?;
                copies.push(copy)?;
            }
            Ok(Term::Fun(*name, copies.into_vec()))
        }
    }
}

/// Arguments with their variables numbered by their places in an order.
///
/// `left` is how many nodes may still be made, and goes down by those of the copies; out of memory, if these are more.
pub fn copied_args(
    alloc: Global,
    args: &Args,
    order: &[u32],
    left: &mut u32,
) -> Result<Terms, AllocError>
    requires { length order.now < 2 ^ 32 }
    ensures terms { IfOk result (λ ts. ts ≡ map (renumbered order.now) (args_of args.now)) }
    ensures nodes { IfOk result (λ ts. left.old ≡ left.new + sum_by nodes_of ts) }
{
    let mut copies = Terms::new(alloc);
    match args {
        Args::Terms(terms) => {
            'terms: for term in *terms {
                let copy = copied(alloc, term, order, left)?;
                copies.push(copy)?;
            }
            Ok(copies)
        }
        Args::Variables(variables) => {
            'variables: for x in variables {
                take_node(left)?;
                let copy = copied_variable(order, *x);
                copies.push(copy)?;
            }
            Ok(copies)
        }
    }
}
