//! The values of a clause's variables that break the rule of preconditions.

ghost use Rattle.std.specs.Prelude.{◌≡◌, ◌↔◌, ◌≤◌, ◌+◌, ℕ, Bool, IsTrue, IfOk, if◌then◌else◌, length, slice_get, Some};
ghost use Rattle.std.specs.List.{AllByRecursion};
ghost use Rattle.truth_rows.specs.Ends.{ArePlacedOrSame, IsTold, SaysAsked};
ghost use Rattle.cti_terms.specs.declared.atom_list.Atom.{Atom};
ghost use Rattle.truth_rows.specs.Ready.{HasAtom, HasTruths, IsReady};
ghost use Rattle.bool_diagrams.specs.Rows.{IsDiagram, Keeps, holds};
ghost use Rattle.precond_fixpoint.specs.Breaking.{AreReadyFor, Breaks};

use bool_diagrams::{Diagram, Table};
use cti_terms::{Atom, MOST_VARIABLES};
use std::alloc::AllocError;
use term_size::Norm;
use truth_rows::{ClauseRule, atom_rows, place_head, put_body_off, rows_of_head, without_ended};

/// The rows of a set on which an atom of the clause is not in its own set: in `pre` if it is of the head's component,
/// else in `allowed`.
fn leaving_rows<N: Norm>(
    norm: &N,
    table: &mut Table,
    rule: &ClauseRule,
    reached: Diagram,
    own: bool,
    atom: &Atom,
) -> Result<Diagram, AllocError>
    requires few { rule.now.clause.now.vars ≤ MOST_VARIABLES }
    requires known { IsDiagram table.old reached }
    requires pre { IsReady table.old rule.now.pre.now rule.now.clause.now.vars atom.now }
    requires allowed { IsReady table.old rule.now.allowed.now rule.now.clause.now.vars atom.now }
    ensures keeps { Keeps table.old table.new }
    ensures known { IfOk result (IsDiagram table.new) }
    ensures rows { IfOk result (λ d. (v : ℕ → Bool)
        → IsTrue (holds table.new d v)
        ↔ (IsTrue (holds table.old reached v)
        × (HasAtom (N.truth norm.now) table.old
        (if own then rule.now.pre.now else rule.now.allowed.now) v atom.now → ⊥))) }
{
    let wanted = rule.rows_of_call(norm, table, own, atom)?;
    let outside = table.not(wanted)?;
    let rows = table.and(reached, outside)?;
    Ok(rows)
}

/// The rows of a set on which the head is in its set.
fn reached_head<N: Norm>(
    norm: &N,
    table: &mut Table,
    rule: &ClauseRule,
    placed: Diagram,
) -> Result<Diagram, AllocError>
    requires few { rule.now.clause.now.vars ≤ MOST_VARIABLES }
    requires known { IsDiagram table.old placed }
    requires head { IsReady table.old rule.now.pre.now rule.now.clause.now.vars rule.now.clause.now.head }
    ensures keeps { Keeps table.old table.new }
    ensures known { IfOk result (IsDiagram table.new) }
    ensures rows { IfOk result (λ d. (v : ℕ → Bool) → IsTrue (holds table.new d v)
        ↔ (IsTrue (holds table.old placed v)
        × HasAtom (N.truth norm.now) table.old rule.now.pre.now v rule.now.clause.now.head)) }
{
    let clause = rule.clause;
    let inside = atom_rows(norm, table, rule.pre, &clause.head, clause.vars)?;
    let rows = table.and(placed, inside)?;
    Ok(rows)
}

/// The rows of a set at which the head's row is in its set and a call is reached whose row is not in the call's, as far
/// as variables are asked for after the body.
///
/// A variable is left out once no call to come asks for it.
fn breaking_calls<N: Norm>(
    norm: &N,
    table: &mut Table,
    rule: &ClauseRule,
    placed: Diagram,
    ends: &[usize],
) -> Result<Diagram, AllocError>
    requires ready { AreReadyFor table.old rule.now.ranks.now rule.now.grounds.now rule.now.pre.now
        rule.now.allowed.now rule.now.clause.now }
    requires known { IsDiagram table.old placed }
    requires each { MOST_VARIABLES ≤ length ends.now }
    requires told { (j : ℕ) (b : Atom) → slice_get rule.now.clause.now.body j ≡ Some b
        → AllByRecursion (IsTold (N.truth norm.now) ends.now j) b.args }
    ensures keeps { Keeps table.old table.new }
    ensures known { IfOk result (IsDiagram table.new) }
    ensures says { IfOk result (λ d. SaysAsked ends.now (length rule.now.clause.now.body)
        (λ v. Breaks (N.truth norm.now) table.old rule.now.ranks.now rule.now.grounds.now rule.now.pre.now
        rule.now.allowed.now rule.now.clause.now v
        × IsTrue (holds table.old placed v)) (holds table.new d)) }
{
    let clause = rule.clause;
    let rank = rule.ranks[clause.head.pred.0 as usize];
    let mut broken = table.truth(false);
    let mut reached = reached_head(norm, table, rule, placed)?;
    for (place, atom) in clause.body.as_slice().iter().enumerate() {
        reached = without_ended(table, reached, ends, place, clause.vars)?;
        broken = without_ended(table, broken, ends, place, clause.vars)?;
        let own = rule.ranks[atom.pred.0 as usize] == rank;
        let leaving = leaving_rows(norm, table, rule, reached, own, atom)?;
        broken = table.or(broken, leaving)?;
        let holding = atom_rows(norm, table, rule.grounds, atom, clause.vars)?;
        reached = table.and(reached, holding)?;
    }
    Ok(broken)
}

/// Values of a clause's variables at which the head's row is in its set and a call is reached whose row is not in the
/// call's, with the truths of the head's arguments in the variables of places: of each argument its truth, or else the
/// variables that it asks for.
fn breaking_values<N: Norm>(
    norm: &N,
    table: &mut Table,
    rule: &ClauseRule,
) -> Result<Diagram, AllocError>
    requires { AreReadyFor table.old rule.now.ranks.now rule.now.grounds.now rule.now.pre.now
        rule.now.allowed.now rule.now.clause.now }
    ensures keeps { Keeps table.old table.new }
    ensures known { IfOk result (IsDiagram table.new) }
    ensures all { IfOk result (λ d. (row : ℕ → Bool)
        → Breaks (N.truth norm.now) table.old rule.now.ranks.now rule.now.grounds.now rule.now.pre.now
        rule.now.allowed.now rule.now.clause.now row
        → HasTruths (N.truth norm.now) row (λ j. row (48 + j)) rule.now.clause.now.head.args
        (length rule.now.clause.now.head.args)
        → IsTrue (holds table.new d row)) }
    ensures some { IfOk result (λ d. (row : ℕ → Bool) → IsTrue (holds table.new d row)
        → (v : ℕ → Bool) × ((x : ℕ) → 48 ≤ x → v x ≡ row x)
        × Breaks (N.truth norm.now) table.old rule.now.ranks.now rule.now.grounds.now rule.now.pre.now
        rule.now.allowed.now rule.now.clause.now v
        × ArePlacedOrSame (N.truth norm.now) v row rule.now.clause.now.head.args) }
{
    let clause = rule.clause;
    let mut ends = [0; MOST_VARIABLES as usize];
    put_body_off(norm, &mut ends, &clause.body, clause.vars);
    let after = clause.body.as_slice().len() + 1;
    let placed = place_head(
        norm,
        table,
        &mut ends,
        after,
        &clause.head.args,
        clause.vars,
    )?;
    let values = breaking_calls(norm, table, rule, placed, &ends)?;
    Ok(values)
}

/// The truth rows of a clause's head from which the rule is broken.
pub(crate) fn broken_rows<N: Norm>(
    norm: &N,
    table: &mut Table,
    rule: &ClauseRule,
) -> Result<Diagram, AllocError>
    requires { AreReadyFor table.old rule.now.ranks.now rule.now.grounds.now rule.now.pre.now
        rule.now.allowed.now rule.now.clause.now }
    ensures keeps { Keeps table.old table.new }
    ensures known { IfOk result (IsDiagram table.new) }
    ensures rows { IfOk result (λ d. (row : ℕ → Bool) → IsTrue (holds table.new d row)
        ↔ ((v : ℕ → Bool) × Breaks
        (N.truth norm.now) table.old rule.now.ranks.now rule.now.grounds.now rule.now.pre.now
        rule.now.allowed.now rule.now.clause.now v
        × HasTruths (N.truth norm.now) v row rule.now.clause.now.head.args
        (length rule.now.clause.now.head.args))) }
{
    let values = breaking_values(norm, table, rule)?;
    let clause = rule.clause;
    let rows = rows_of_head(norm, table, values, &clause.head.args, clause.vars)?;
    Ok(rows)
}
