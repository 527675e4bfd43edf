//! The truth rows that a clause gives to its head.

ghost use Rattle.std.specs.Prelude.{◌≡◌, ◌≤◌, ◌<◌, ◌+◌, ℕ, Bool, IsTrue, IfOk, length, slice_get, Some};
ghost use Rattle.std.specs.List.{AllByRecursion};
ghost use Rattle.truth_rows.specs.Ends.{ArePlacedOrSame, IsTold, SaysAsked};
ghost use Rattle.truth_rows.specs.Ready.{HasAtoms, HasTruths, IsReadyClause};
ghost use Rattle.cti_terms.specs.declared.atom_list.Atom.{Atom};
ghost use Rattle.bool_diagrams.specs.Rows.{IsDiagram, Keeps, holds};

use crate::atoms::atom_rows;
use crate::ends::{put_body_off, without_ended};
use crate::head_rows::rows_of_head;
use crate::placing::place_head;
use bool_diagrams::{Diagram, Table};
use cti_terms::{Clause, MOST_VARIABLES};
use std::alloc::AllocError;
use term_size::Norm;

/// The truth rows of a clause's head where each atom of its body is in the set of its predicate.
pub fn rows_of_clause<N: Norm>(
    norm: &N,
    table: &mut Table,
    sets: &[Diagram],
    clause: &Clause,
) -> Result<Diagram, AllocError>
    requires { IsReadyClause table.old sets.now clause.now }
    ensures keeps { Keeps table.old table.new }
    ensures known { IfOk result (IsDiagram table.new) }
    ensures all { IfOk result (λ d. (v row : ℕ → Bool)
        → ((w : ℕ → Bool) → ((x : ℕ) → x < clause.now.vars → w x ≡ v x)
        → HasAtoms (N.truth norm.now) table.old sets.now w clause.now.body (length clause.now.body))
        → HasTruths (N.truth norm.now) v row clause.now.head.args (length clause.now.head.args)
        → IsTrue (holds table.new d row)) }
    ensures some { IfOk result (λ d. (row : ℕ → Bool) → IsTrue (holds table.new d row)
        → (v : ℕ → Bool)
        × HasAtoms (N.truth norm.now) table.old sets.now v clause.now.body (length clause.now.body)
        × HasTruths (N.truth norm.now) v row clause.now.head.args (length clause.now.head.args)) }
{
    let bound = bound_clause(norm, table, sets, clause)?;
    let rows = rows_of_head(norm, table, bound, &clause.head.args, clause.vars)?;
    Ok(rows)
}

/// Values of a clause's variables at which each atom of the body is in the set of its predicate, with the truths of the
/// head's arguments in the variables of places: of each argument its truth, or else the variables that it asks for.
///
/// A variable is left out once no atom to come asks for it.
fn bound_clause<N: Norm>(
    norm: &N,
    table: &mut Table,
    sets: &[Diagram],
    clause: &Clause,
) -> Result<Diagram, AllocError>
    requires { IsReadyClause table.old sets.now clause.now }
    ensures keeps { Keeps table.old table.new }
    ensures known { IfOk result (IsDiagram table.new) }
    ensures all { IfOk result (λ d. (row : ℕ → Bool)
        → HasAtoms (N.truth norm.now) table.old sets.now row clause.now.body (length clause.now.body)
        → HasTruths (N.truth norm.now) row (λ j. row (48 + j)) clause.now.head.args
        (length clause.now.head.args)
        → IsTrue (holds table.new d row)) }
    ensures some { IfOk result (λ d. (row : ℕ → Bool) → IsTrue (holds table.new d row)
        → (v : ℕ → Bool) × ((x : ℕ) → 48 ≤ x → v x ≡ row x)
        × HasAtoms (N.truth norm.now) table.old sets.now v clause.now.body (length clause.now.body)
        × ArePlacedOrSame (N.truth norm.now) v row clause.now.head.args) }
{
    let mut ends = [0; MOST_VARIABLES as usize];
    put_body_off(norm, &mut ends, &clause.body, clause.vars);
    let after = clause.body.as_slice().len() + 1;
    let placed = place_head(
        norm,
        table,
        &mut ends,
        after,
        &clause.head.args,
        clause.vars,
    )?;
    let rows = join_body(norm, table, sets, clause, placed, &ends)?;
    Ok(rows)
}

/// The rows of a set on which each atom of a clause's body is in the set of its predicate, as far as variables are
/// asked for after the body.
fn join_body<N: Norm>(
    norm: &N,
    table: &mut Table,
    sets: &[Diagram],
    clause: &Clause,
    placed: Diagram,
    ends: &[usize],
) -> Result<Diagram, AllocError>
    requires clause { IsReadyClause table.old sets.now clause.now }
    requires known { IsDiagram table.old placed }
    requires each { MOST_VARIABLES ≤ length ends.now }
    requires told { (j : ℕ) (b : Atom) → slice_get clause.now.body j ≡ Some b
        → AllByRecursion (IsTold (N.truth norm.now) ends.now j) b.args }
    ensures keeps { Keeps table.old table.new }
    ensures known { IfOk result (IsDiagram table.new) }
    ensures says { IfOk result (λ d. SaysAsked ends.now (length clause.now.body)
        (λ v. HasAtoms (N.truth norm.now) table.old sets.now v clause.now.body (length clause.now.body)
        × IsTrue (holds table.old placed v)) (holds table.new d)) }
{
    let mut rows = without_ended(table, placed, ends, 0, clause.vars)?;
    for (place, atom) in clause.body.as_slice().iter().enumerate() {
        let holding = atom_rows(norm, table, sets, atom, clause.vars)?;
        rows = table.and(rows, holding)?;
        rows = without_ended(table, rows, ends, place + 1, clause.vars)?;
    }
    Ok(rows)
}
