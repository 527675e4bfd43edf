//! After which place of a list of atoms or terms a variable is asked for no more, so that sets can do without it.
//!
//! A variable's end is the number of places after which nothing asks for it. A join of many sets stays small where each
//! variable is left out as soon as its end is reached.

ghost use Rattle.std.specs.Prelude.{◌≡◌, ◌≤◌, ◌<◌, ℕ, IsTrue, IfOk, length, slice_get, Some, sum_by};
ghost use Rattle.std.specs.List.{AllByRecursion};
ghost use Rattle.truth_rows.specs.Ends.{IsAsked, IsTold, SaysAsked};
ghost use Rattle.bool_diagrams.specs.Rows.{IsDiagram, Keeps, holds};
ghost use Rattle.cti_terms.specs.Spell.{tree_of};
ghost use Rattle.cti_terms.specs.Tree.{is_below, nodes_of};
ghost use Rattle.cti_terms.specs.declared.atom_list.Atom.{Atom};
ghost use Rattle.cti_terms.specs.Listing.{atom_nodes};

use bool_diagrams::{Diagram, Table};
use cti_terms::{Atoms, MOST_NODES, MOST_VARIABLES, Term, Terms};
use std::alloc::AllocError;
use term_size::Norm;

/// Puts off the ends of a term's variables to a place at least.
pub fn put_off<N: Norm>(norm: &N, ends: &mut [usize], end: usize, t: &Term, vars: u32)
    requires few { vars ≤ MOST_VARIABLES }
    requires below { IsTrue (is_below vars (tree_of t.now)) }
    requires small { nodes_of (tree_of t.now) ≤ MOST_NODES }
    requires each { MOST_VARIABLES ≤ length ends.old }
    ensures each { length ends.new ≡ length ends.old }
    ensures more { (n x : ℕ) → IsAsked ends.old n x → IsAsked ends.new n x }
    ensures told { (n : ℕ) → n < end → IsTold (N.truth norm.now) ends.new n (tree_of t.now) }
{
    let listed = norm.rigid_vars(t, vars);
    for x in 0..vars {
        if !listed.contains(x) {
            continue;
        }
        ends[x as usize] = ends[x as usize].max(end);
    }
}

/// Puts off the ends of the variables of several terms to a place at least.
fn put_all_off<N: Norm>(norm: &N, ends: &mut [usize], end: usize, terms: &Terms, vars: u32)
    requires few { vars ≤ MOST_VARIABLES }
    requires below { AllByRecursion (λ t. IsTrue (is_below vars t)) terms.now }
    requires small { sum_by nodes_of terms.now ≤ MOST_NODES }
    requires each { MOST_VARIABLES ≤ length ends.old }
    ensures each { length ends.new ≡ length ends.old }
    ensures more { (n x : ℕ) → IsAsked ends.old n x → IsAsked ends.new n x }
    ensures told { (n : ℕ) → n < end
        → AllByRecursion (IsTold (N.truth norm.now) ends.new n) terms.now }
{
    for t in terms.as_slice() {
        put_off(norm, ends, end, t, vars);
    }
}

/// Puts off the ends of the variables of a body: each is after the last atom that asks for it.
pub fn put_body_off<N: Norm>(norm: &N, ends: &mut [usize], body: &Atoms, vars: u32)
    requires few { vars ≤ MOST_VARIABLES }
    requires below { (j : ℕ) (b : Atom) → slice_get body.now j ≡ Some b
        → AllByRecursion (λ t. IsTrue (is_below vars t)) b.args }
    requires small { (j : ℕ) (b : Atom) → slice_get body.now j ≡ Some b
        → atom_nodes b ≤ MOST_NODES }
    requires each { MOST_VARIABLES ≤ length ends.old }
    ensures each { length ends.new ≡ length ends.old }
    ensures told { (j : ℕ) (b : Atom) → slice_get body.now j ≡ Some b
        → AllByRecursion (IsTold (N.truth norm.now) ends.new j) b.args }
{
    for (place, atom) in body.as_slice().iter().enumerate() {
        put_all_off(norm, ends, place + 1, &atom.args, vars);
    }
}

/// Leaves out the variables whose end is a place: the set's rows with any values of these.
pub fn without_ended(
    table: &mut Table,
    set: Diagram,
    ends: &[usize],
    place: usize,
    vars: u32,
) -> Result<Diagram, AllocError>
    requires known { IsDiagram table.old set }
    requires few { vars ≤ MOST_VARIABLES }
    requires each { MOST_VARIABLES ≤ length ends.now }
    ensures keeps { Keeps table.old table.new }
    ensures known { IfOk result (IsDiagram table.new) }
    ensures rows { IfOk result
        (λ d. SaysAsked ends.now place (λ v. IsTrue (holds table.old set v)) (holds table.new d)) }
{
    let mut rows = set;
    for x in 0..vars {
        if ends[x as usize] != place {
            continue;
        }
        rows = table.exists(rows, x)?;
    }
    Ok(rows)
}
