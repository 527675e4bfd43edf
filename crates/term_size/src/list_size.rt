//! The norm that counts the cells of lists.

ghost use Rattle.std.specs.Prelude.{◌≡◌, ◌<◌, ◌≤◌, ◌↔◌, ℕ, IfOk, Contains, Some, option_map, pos};
ghost use Rattle.cti_terms.specs.Spell.{tree_of, trees_of};
ghost use Rattle.cti_terms.specs.Tree.{nodes_of};
ghost use Rattle.term_size.specs.ListSize.{end_of, ends_from, ends_in, is_dot, list_row, list_size, list_truth, second, tail_of};
ghost use Rattle.term_size.specs.ListSizeLaws.{list_size_is_a_norm};
ghost use Rattle.term_size.specs.Members.{members};

use crate::norm::Norm;
use crate::size_expr::{Coefficients, SizeExpr};
use crate::var_set::{SET_VARIABLES, VarSet};
use cti_terms::{MOST_NODES, Name, Term};
use std::alloc::{AllocError, Global};

/// List size: the number of cells of a list, by the name of the cells. Where there is no such name, no term is a cell.
///
/// A list is rigid exactly where it does not end in a variable, and a term that is no list always is.
///
/// Source: the list-length norm, as in Bossi, Cocco and Fabris 1991.
#[derive(Clone, Copy, PartialEq, Eq)]
pub struct ListSize {
    pub dot: Option<Name>,
}

// How many cells a list has, and the variable at its end.
#[derive(Clone, Copy)]
struct Cells {
    count: u32,
    end: Option<u32>,
}

impl ListSize {
    /// Whether a name is the cell's.
    fn is_dot(self, name: Name) -> bool
        ensures { result ≡ is_dot self.dot name.0 }
    {
        match self.dot {
            Some(dot) => dot.0 == name.0,
            None => false,
        }
    }

    /// The tail of a term that is a cell.
    fn tail_of<'a>(self, t: &'a Term) -> Option<&'a Term>
        ensures { option_map (λ u. tree_of u.now) result ≡ tail_of self.dot (tree_of t.entry.now) }
    {
        let Term::Fun(name, args) = t else {
            return None;
        };
        if !self.is_dot(*name) {
            return None;
        }
        second(args.as_slice())
    }

    /// The cells of a term.
    fn cells(self, t: &Term) -> Cells
        requires { nodes_of (tree_of t.now) ≤ MOST_NODES }
        ensures count { result.count ≡ list_size self.dot (λ _. 0) (tree_of t.now) }
        ensures end { result.end ≡ end_of self.dot (tree_of t.now) }
    {
        let mut count = 0;
        let mut rest = t;
        while let Some(tail) = self.tail_of(rest) {
            count += 1;
            rest = tail;
        }
        let end = match rest {
            Term::Var(x) => Some(*x),
            Term::Int(_) | Term::Fun(_, _) => None,
        };
        Cells { count, end }
    }
}

/// The second of two arguments.
fn second(args: &[Term]) -> Option<&Term>
    ensures { option_map (λ u. tree_of u.now) result ≡ second (trees_of args.entry.now) }
{
    if args.len() != 2 {
        return None;
    }
    Some(&args[1])
}

/// 1 for the variable at the end, and 0 for others.
fn end_coefficient(end: Option<u32>, x: u32) -> i128
    ensures { result ≡ pos (ends_in end x) }
{
    match end {
        Some(y) if x == y => 1,
        _ => 0,
    }
}

/// For each of the given number of variables whether it is the one at the end.
fn end_coefficients(alloc: Global, end: Option<u32>, vars: u32) -> Result<Coefficients, AllocError>
    ensures { IfOk result (λ c. c ≡ ends_from 0 vars end) }
{
    let mut items = Vec::new(alloc);
    for x in 0..vars {
        items.push(end_coefficient(end, x))?;
    }
    Ok(Coefficients::from_vec(items))
}

/// The set of the variable at the end, if there is one.
fn end_set(end: Option<u32>) -> VarSet
    requires { (x : ℕ) → end ≡ Some x → x < SET_VARIABLES }
    ensures { (x : ℕ) → Contains (members result) x ↔ (end ≡ Some x) }
{
    let mut set = VarSet::new();
    if let Some(x) = end {
        set.insert(x);
    }
    set
}

impl Norm for ListSize {
    ghost size = { λ n. list_size n.dot };

    ghost truth = { λ n. list_truth n.dot };

    ghost expression = { λ n. list_row n.dot };

    ghost laws = { λ n. list_size_is_a_norm n.dot };

    fn size_expr(&self, alloc: Global, t: &Term, vars: u32) -> Result<SizeExpr, AllocError> {
        let cells = self.cells(t);
        Ok(SizeExpr {
            constant: i128::from(cells.count),
            coeffs: end_coefficients(alloc, cells.end, vars)?,
        })
    }

    fn rigid_vars(&self, t: &Term, _vars: u32) -> VarSet {
        end_set(self.cells(t).end)
    }
}
