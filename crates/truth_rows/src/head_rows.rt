//! The truth rows of a clause's head where the values of its variables are in a set.

ghost use Rattle.std.specs.Prelude.{◌≡◌, ◌↔◌, ◌≤◌, ◌<◌, ◌+◌, ℕ, Bool, IsTrue, IfOk, length, slice_get, Some, sum_by};
ghost use Rattle.std.specs.List.{AllByRecursion};
ghost use Rattle.bool_diagrams.specs.Rows.{IsDiagram, Keeps, holds};
ghost use Rattle.cti_terms.specs.Tree.{Tree, is_below, nodes_of};
ghost use Rattle.truth_rows.specs.Ends.{IsTold};
ghost use Rattle.truth_rows.specs.Ready.{HasTruths};

use crate::atoms::{ARGUMENTS, PLACES};
use crate::ends::{put_off, without_ended};
use crate::rigidity::bound_rows;
use bool_diagrams::{Diagram, Table};
use cti_terms::{MOST_ARGUMENTS, MOST_NODES, MOST_VARIABLES, Terms};
use std::alloc::AllocError;
use term_size::Norm;

/// The truth rows of arguments over the given number of variables, where the values of the variables are in a set. The
/// set may say of some arguments in the variables of places which are rigid, as `place_head` does.
///
/// What the set says of further variables does not matter where it says the same of all their values.
pub fn rows_of_head<N: Norm>(
    norm: &N,
    table: &mut Table,
    values: Diagram,
    arguments: &Terms,
    vars: u32,
) -> Result<Diagram, AllocError>
    requires known { IsDiagram table.old values }
    requires few { vars ≤ MOST_VARIABLES }
    requires narrow { length arguments.now ≤ MOST_ARGUMENTS }
    requires below { AllByRecursion (λ t. IsTrue (is_below vars t)) arguments.now }
    requires small { sum_by nodes_of arguments.now ≤ MOST_NODES }
    ensures keeps { Keeps table.old table.new }
    ensures known { IfOk result (IsDiagram table.new) }
    ensures all { IfOk result (λ d. (v row : ℕ → Bool)
        → ((w : ℕ → Bool) → ((x : ℕ) → x < vars → w x ≡ v x)
        → ((j : ℕ) → j < length arguments.now → w (48 + j) ≡ row j)
        → IsTrue (holds table.old values w))
        → HasTruths (N.truth norm.now) v row arguments.now (length arguments.now)
        → IsTrue (holds table.new d row)) }
    ensures some { IfOk result (λ d. (row : ℕ → Bool) → IsTrue (holds table.new d row)
        → (v : ℕ → Bool) × ((j : ℕ) → j < length arguments.now → v (48 + j) ≡ row j)
        × IsTrue (holds table.old values v)
        × HasTruths (N.truth norm.now) v row arguments.now (length arguments.now)) }
{
    let bound = bound_head(norm, table, values, arguments, vars)?;
    let given = somewhere(table, bound, vars)?;
    let count = arguments.len();
    let rows = table.rename(given, &PLACES[..count], &ARGUMENTS[..count])?;
    Ok(rows)
}

/// The rows that also say, in the variables of places, which arguments of the head are rigid, as far as places tell.
///
/// A variable is left out once no argument to come asks for it.
fn bound_head<N: Norm>(
    norm: &N,
    table: &mut Table,
    body: Diagram,
    arguments: &Terms,
    vars: u32,
) -> Result<Diagram, AllocError>
    requires known { IsDiagram table.old body }
    requires few { vars ≤ MOST_VARIABLES }
    requires narrow { length arguments.now ≤ MOST_ARGUMENTS }
    requires below { AllByRecursion (λ t. IsTrue (is_below vars t)) arguments.now }
    requires small { sum_by nodes_of arguments.now ≤ MOST_NODES }
    ensures keeps { Keeps table.old table.new }
    ensures known { IfOk result (IsDiagram table.new) }
    ensures all { IfOk result (λ d. (row : ℕ → Bool) → IsTrue (holds table.old body row)
        → HasTruths (N.truth norm.now) row (λ j. row (48 + j)) arguments.now (length arguments.now)
        → IsTrue (holds table.new d row)) }
    ensures some { IfOk result (λ d. (row : ℕ → Bool) → IsTrue (holds table.new d row)
        → (v : ℕ → Bool) × ((x : ℕ) → 48 ≤ x → v x ≡ row x) × IsTrue (holds table.old body v)
        × HasTruths (N.truth norm.now) v (λ j. v (48 + j)) arguments.now (length arguments.now)) }
{
    let mut ends = [0; MOST_VARIABLES as usize];
    put_arguments_off(norm, &mut ends, arguments, vars);
    let mut rows = body;
    for (place, argument) in arguments.as_slice().iter().enumerate() {
        let bound = bound_rows(norm, table, rows, PLACES[place], argument, vars)?;
        rows = without_ended(table, bound, &ends, place + 1, vars)?;
    }
    Ok(rows)
}

/// Puts off the ends of the variables of arguments: each is after the last argument that asks for it.
fn put_arguments_off<N: Norm>(norm: &N, ends: &mut [usize], arguments: &Terms, vars: u32)
    requires few { vars ≤ MOST_VARIABLES }
    requires below { AllByRecursion (λ t. IsTrue (is_below vars t)) arguments.now }
    requires small { sum_by nodes_of arguments.now ≤ MOST_NODES }
    requires each { MOST_VARIABLES ≤ length ends.old }
    ensures each { length ends.new ≡ length ends.old }
    ensures told { (j : ℕ) (t : Tree) → slice_get arguments.now j ≡ Some t
        → IsTold (N.truth norm.now) ends.new j t }
{
    for (place, argument) in arguments.as_slice().iter().enumerate() {
        put_off(norm, ends, place + 1, argument, vars);
    }
}

/// The rows that have some values of the first variables in the set.
fn somewhere(table: &mut Table, set: Diagram, vars: u32) -> Result<Diagram, AllocError>
    requires known { IsDiagram table.old set }
    requires few { vars ≤ MOST_VARIABLES }
    ensures keeps { Keeps table.old table.new }
    ensures known { IfOk result (IsDiagram table.new) }
    ensures rows { IfOk result (λ d. (row : ℕ → Bool)
        → IsTrue (holds table.new d row)
        ↔ ((v : ℕ → Bool) × ((x : ℕ) → vars ≤ x → v x ≡ row x) × IsTrue (holds table.old set v))) }
{
    let mut rows = set;
    for variable in 0..vars {
        rows = table.exists(rows, variable)?;
    }
    Ok(rows)
}
