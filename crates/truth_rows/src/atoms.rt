//! The truth rows of an atom, over the variables of its clause.

ghost use Rattle.std.specs.Prelude.{◌≡◌, ◌↔◌, ◌≤◌, ◌<◌, ℕ, Bool, IsTrue, IfOk, map, length, sum_by};
ghost use Rattle.std.specs.List.{AllByRecursion};
ghost use Rattle.truth_rows.specs.Ready.{HasAtom, IsReady};
ghost use Rattle.bool_diagrams.specs.Cubes.{truth_rows};
ghost use Rattle.bool_diagrams.specs.Rows.{IsDiagram, Keeps, ReadsBelow, holds};
ghost use Rattle.cti_terms.specs.Tree.{is_below, nodes_of};

use crate::rigidity::bound_rows;
use bool_diagrams::{Diagram, Table};
use cti_terms::{Atom, MOST_ARGUMENTS, MOST_NODES, MOST_VARIABLES, Terms};
use std::alloc::AllocError;
use term_size::Norm;

/// The variables of a set: one for each argument.
pub const ARGUMENTS: [u32; 12] = [0, 1, 2, 3, 4, 5, 6, 7, 8, 9, 10, 11];

/// Variables that stand for the arguments of one atom, apart from those of a clause.
pub const PLACES: [u32; 12] = [48, 49, 50, 51, 52, 53, 54, 55, 56, 57, 58, 59];

/// The rows of a clause's variables on which the truth row of the arguments is in a set.
pub fn argument_rows<N: Norm>(
    norm: &N,
    table: &mut Table,
    set: Diagram,
    arguments: &Terms,
    vars: u32,
) -> Result<Diagram, AllocError>
    requires known { IsDiagram table.old set }
    requires reads { ReadsBelow table.old set (length arguments.now) }
    requires narrow { length arguments.now ≤ MOST_ARGUMENTS }
    requires few { vars ≤ MOST_VARIABLES }
    requires below { AllByRecursion (λ t. IsTrue (is_below vars t)) arguments.now }
    requires small { sum_by nodes_of arguments.now ≤ MOST_NODES }
    ensures keeps { Keeps table.old table.new }
    ensures known { IfOk result (IsDiagram table.new) }
    ensures rows { IfOk result (λ d. (row : ℕ → Bool)
        → holds table.new d row ≡ truth_rows table.old set
        (map (N.truth norm.now row) arguments.now)) }
{
    let count = arguments.len();
    let mut rows = table.rename(set, &ARGUMENTS[..count], &PLACES[..count])?;
    for (place, argument) in arguments.as_slice().iter().enumerate() {
        let variable = PLACES[place];
        let bound = bound_rows(norm, table, rows, variable, argument, vars)?;
        rows = table.exists(bound, variable)?;
    }
    Ok(rows)
}

/// The rows of a clause's variables on which an atom is in the set of its predicate.
pub fn atom_rows<N: Norm>(
    norm: &N,
    table: &mut Table,
    sets: &[Diagram],
    atom: &Atom,
    vars: u32,
) -> Result<Diagram, AllocError>
    requires few { vars ≤ MOST_VARIABLES }
    requires ready { IsReady table.old sets.now vars atom.now }
    ensures keeps { Keeps table.old table.new }
    ensures known { IfOk result (IsDiagram table.new) }
    ensures rows { IfOk result (λ d. (row : ℕ → Bool)
        → IsTrue (holds table.new d row)
        ↔ HasAtom (N.truth norm.now) table.old sets.now row atom.now) }
{
    argument_rows(norm, table, sets[atom.pred.0 as usize], &atom.args, vars)
}
