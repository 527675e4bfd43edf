//! The arguments of a clause's head that are placed before its body.
//!
//! The truths of a few arguments stand in the variables of places before the body's rows are joined, so that their
//! variables are left out as soon as no atom to come asks for them. Else a clause that goes over the fields of two
//! terms in its head would have diagrams that double with each pair of fields. The truths of the other arguments are
//! found in the end: with all twelve at once diagrams may have 2^12 nodes, even where each argument is a variable.

ghost use Rattle.std.specs.Prelude.{◌≡◌, ◌≤◌, ◌<◌, ◌+◌, ℕ, Bool, IsTrue, IfOk, length, slice_get, Some, sum_by};
ghost use Rattle.std.specs.List.{AllByRecursion};
ghost use Rattle.bool_diagrams.specs.Rows.{IsDiagram, Keeps, holds};
ghost use Rattle.cti_terms.specs.Spell.{tree_of};
ghost use Rattle.cti_terms.specs.Tree.{Tree, is_below, nodes_of};
ghost use Rattle.truth_rows.specs.Ends.{IsAsked, IsPlacedOrTold};
ghost use Rattle.truth_rows.specs.Ready.{HasTruths};

use crate::atoms::PLACES;
use crate::ends::put_off;
use crate::rigidity::bound_rows;
use bool_diagrams::{Diagram, Table};
use cti_terms::{MOST_ARGUMENTS, MOST_NODES, MOST_VARIABLES, Term, Terms};
use std::alloc::AllocError;
use term_size::Norm;

/// How many arguments are placed before the body at most: a diagram may double with each.
const MOST_PLACED: usize = 4;

/// With no more variables than these a clause's diagrams are small in any order.
const FEW_VARIABLES: u32 = 12;

/// How many variables the rigidity of a term asks for.
fn width_of<N: Norm>(norm: &N, t: &Term, vars: u32) -> usize
    requires few { vars ≤ MOST_VARIABLES }
    requires below { IsTrue (is_below vars (tree_of t.now)) }
    requires small { nodes_of (tree_of t.now) ≤ MOST_NODES }
    ensures { result ≤ vars }
{
    let listed = norm.rigid_vars(t, vars);
    let mut width = 0;
    for x in 0..vars {
        if listed.contains(x) {
            width += 1;
        }
    }
    width
}

/// How many variables the rigidity of each argument asks for.
fn widths_of<N: Norm>(norm: &N, arguments: &Terms, vars: u32) -> [usize; MOST_ARGUMENTS as usize]
    requires few { vars ≤ MOST_VARIABLES }
    requires narrow { length arguments.now ≤ MOST_ARGUMENTS }
    requires below { AllByRecursion (λ t. IsTrue (is_below vars t)) arguments.now }
    requires small { sum_by nodes_of arguments.now ≤ MOST_NODES }
    ensures { length result ≡ MOST_ARGUMENTS }
{
    let mut widths = [0; MOST_ARGUMENTS as usize];
    for (place, argument) in arguments.as_slice().iter().enumerate() {
        widths[place] = width_of(norm, argument, vars);
    }
    widths
}

/// Whether an argument is placed before the body of a clause with this many variables: it has several of them, and is
/// one of those with the most.
fn is_placed_early(widths: &[usize], place: usize, vars: u32) -> bool
    requires { place < length widths.now }
{
    let own = widths[place];
    let mut wider = 0;
    for (other, width) in widths.iter().enumerate() {
        if *width > own || *width == own && other < place {
            wider += 1;
        }
    }
    vars > FEW_VARIABLES && own > 1 && wider < MOST_PLACED
}

/// The rows that say in the variables of places which of a few arguments are rigid.
///
/// The ends of the variables of all other arguments are put off to a place at least.
pub fn place_head<N: Norm>(
    norm: &N,
    table: &mut Table,
    ends: &mut [usize],
    end: usize,
    arguments: &Terms,
    vars: u32,
) -> Result<Diagram, AllocError>
    requires few { vars ≤ MOST_VARIABLES }
    requires narrow { length arguments.now ≤ MOST_ARGUMENTS }
    requires below { AllByRecursion (λ t. IsTrue (is_below vars t)) arguments.now }
    requires small { sum_by nodes_of arguments.now ≤ MOST_NODES }
    requires each { MOST_VARIABLES ≤ length ends.old }
    ensures keeps { Keeps table.old table.new }
    ensures each { length ends.new ≡ length ends.old }
    ensures more { (n x : ℕ) → IsAsked ends.old n x → IsAsked ends.new n x }
    ensures known { IfOk result (IsDiagram table.new) }
    ensures all { IfOk result (λ d. (row : ℕ → Bool)
        → HasTruths (N.truth norm.now) row (λ j. row (48 + j)) arguments.now (length arguments.now)
        → IsTrue (holds table.new d row)) }
    ensures some { IfOk result (λ d. (row : ℕ → Bool) → IsTrue (holds table.new d row)
        → (j : ℕ) (t : Tree) → slice_get arguments.now j ≡ Some t
        → IsPlacedOrTold (N.truth norm.now) ends.new end row j t) }
{
    let widths = widths_of(norm, arguments, vars);
    let mut rows = table.truth(true);
    for (place, argument) in arguments.as_slice().iter().enumerate() {
        if !is_placed_early(&widths, place, vars) {
            put_off(norm, ends, end, argument, vars);
            continue;
        }
        rows = bound_rows(norm, table, rows, PLACES[place], argument, vars)?;
    }
    Ok(rows)
}
