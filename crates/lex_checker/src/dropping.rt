//! Drops of lists at calls.

ghost use Rattle.std.specs.Prelude.{◌≡◌, ◌↔◌, ◌+◌, ◌-◌, ◌≤◌, ℕ, IfOk, IsTrue, Some, length, slice_get};
ghost use Rattle.call_components.specs.Partition.{AreComponents};
ghost use Rattle.cti_terms.specs.declared.clauses.Clause.{Clause as TheClause};
ghost use Rattle.number_tests.specs.Drops.{drop_weights, fall_number};
ghost use Rattle.lex_checker.specs.Proved.{CallsDrop, DropsHold, MeasuresDrop};
ghost use Rattle.lex_checker.specs.Shape.{AreListsAt, AreShown, CanDrop, HaveDrops, HaveLists};
ghost use Rattle.linear_rows.specs.Plain.{HaveWidth, plain_rows};
ghost use Rattle.number_tests.specs.Shape.{list_at};
ghost use Rattle.number_tests.specs.Systems.{IsSizedAtom, IsSizedClause, IsSystemUpTo};
ghost use Rattle.number_tests.specs.Targets.{CanBeWeighed};
ghost use Rattle.termination_model.specs.sizes.Replacing.{IsRowIfFits, over_columns};
ghost use Rattle.termination_model.specs.sizes.Sizes.{AreSizes, rows_of};

use crate::items::items_at;
use call_components::Components;
use cti_terms::{Atom, Clause, Program};
use lex_certificate::LexParts;
use linear_rows::{Multipliers, Numbers, Row, Rows, System};
use number_tests::{LevelPart, extend, fall_columns, first_system, multipliers_flaw, weigh_drop};
use sequences::Sequence;
use std::alloc::{AllocError, Global};
use term_size::Norm;
use termination_model::replaced;

/// The row that has to be shown of a measure: its level at the head, less that at the call, and 1 less where it is to
/// fall.
///
/// The columns are those of the head's arguments and of the call's. There is no row where a number of it does not fit.
fn drop_row(
    alloc: Global,
    columns: &[Numbers],
    head: &LevelPart,
    call: &LevelPart,
    falls: bool,
) -> Result<Option<Row>, AllocError>
    requires weighed { CanBeWeighed columns.now head.now call.now }
    requires some { 1 ≤ length columns.now }
    ensures { IfOk result (IsRowIfFits
        (over_columns columns.now (drop_weights (fall_number falls) head.now call.now))) }
{
    let weights = weigh_drop(alloc, head, call, falls)?;
    replaced(alloc, weights.as_slice(), columns)
}

/// Whether the multipliers of a list show that its measures drop: that none rises, and that the last of them falls.
fn measures_drop(
    alloc: Global,
    rows: &Rows,
    columns: &[Numbers],
    heads: &[LevelPart],
    calls: &[LevelPart],
    proofs: &[Multipliers],
) -> Result<bool, AllocError>
    requires parts { CanDrop (length rows.now.list) columns.now heads.now calls.now proofs.now }
    requires width { HaveWidth rows.now.width rows.now.list }
    requires count { length columns.now ≡ rows.now.width + 1 }
    ensures { IfOk result (λ yes. IsTrue yes
        ↔ AreShown (plain_rows rows.now.list) columns.now heads.now calls.now proofs.now) }
{
    for i in 0..proofs.len() {
        let falls = i + 1 == proofs.len();
        let target = drop_row(alloc, columns, &heads[i], &calls[i], falls)?;
        if multipliers_flaw(rows, target, &proofs[i]).is_some() {
            return Ok(false);
        }
    }
    Ok(true)
}

/// Whether the measures of each list drop, by the multipliers of the list.
fn lists_drop(
    alloc: Global,
    rows: &Rows,
    columns: &[Numbers],
    heads: &[Sequence<LevelPart>],
    calls: &[Sequence<LevelPart>],
    proofs: &[Sequence<Multipliers>],
) -> Result<bool, AllocError>
    requires parts { (m : ℕ) → CanDrop (length rows.now.list) columns.now
        (list_at heads.now m) (list_at calls.now m) (list_at proofs.now m) }
    requires width { HaveWidth rows.now.width rows.now.list }
    requires count { length columns.now ≡ rows.now.width + 1 }
    ensures { IfOk result (λ yes. IsTrue yes
        ↔ ((m : ℕ) → AreShown (plain_rows rows.now.list) columns.now
        (list_at heads.now m) (list_at calls.now m) (list_at proofs.now m))) }
{
    for m in 0..proofs.len() {
        let (own, other) = (items_at(heads, m), items_at(calls, m));
        if !measures_drop(alloc, rows, columns, own, other, items_at(proofs, m))? {
            return Ok(false);
        }
    }
    Ok(true)
}

/// Whether the lists drop from a clause's head to a call, over the system of the atoms before the call.
fn call_drops<N: Norm>(
    alloc: Global,
    norm: &N,
    parts: &LexParts,
    system: &System,
    clause: &Clause,
    call: &Atom,
    proofs: &[Sequence<Multipliers>],
) -> Result<bool, AllocError>
    requires system { (j : ℕ)
        × IsSystemUpTo (N.expression norm.now) (rows_of parts.now.rows) clause.now j system.now }
    requires sized { IsSizedClause parts.now.rows clause.now }
    requires call { IsSizedAtom parts.now.rows clause.now.vars call.now }
    requires lists { AreListsAt (length system.now.rows.list) clause.now call.now
        (list_at parts.now.lists clause.now.head.pred.0)
        (list_at parts.now.lists call.now.pred.0) proofs.now }
    ensures { IfOk result (λ yes. IsTrue yes ↔ ((m : ℕ) → MeasuresDrop (N.expression norm.now)
        (plain_rows system.now.rows.list) clause.now call.now
        (list_at (list_at parts.now.lists clause.now.head.pred.0) m)
        (list_at (list_at parts.now.lists call.now.pred.0) m) (list_at proofs.now m))) }
{
    let columns = fall_columns(alloc, norm, system, call)?;
    let heads = items_at(parts.lists.as_slice(), clause.head.pred.0 as usize);
    let calls = items_at(parts.lists.as_slice(), call.pred.0 as usize);
    lists_drop(
        alloc,
        &system.rows,
        columns.as_slice(),
        heads,
        calls,
        proofs,
    )
}

/// Whether the lists drop from a clause's head to each call of its own component. Clauses count from 1.
fn clause_drops<N: Norm>(
    alloc: Global,
    p: &Program,
    comps: &Components,
    norm: &N,
    parts: &LexParts,
    k: u32,
) -> Result<bool, AllocError>
    requires first { 1 ≤ k }
    requires last { k ≤ length p.now.clauses }
    requires components { AreComponents p.now comps.now }
    requires sizes { AreSizes p.now.preds parts.now.rows }
    requires lists { HaveLists p.now comps.now parts.now }
    requires drops { HaveDrops p.now comps.now parts.now }
    ensures { IfOk result (λ yes. (c : TheClause) → slice_get p.now.clauses (k - 1) ≡ Some c
        → IsTrue yes ↔ CallsDrop (N.expression norm.now) comps.now parts.now c
        (list_at parts.now.drops (k - 1))) }
{
    let clause = p.clause(k);
    let component = comps.of(clause.head.pred);
    let proofs = items_at(parts.drops.as_slice(), k as usize - 1);
    let mut system = first_system(alloc, norm, &parts.rows, clause)?;
    let mut atoms = 0;
    for j in 0..clause.body.len() {
        let call = &clause.body.as_slice()[j];
        if comps.of(call.pred) != component {
            continue;
        }
        extend(alloc, norm, &parts.rows, clause, atoms, j, &mut system)?;
        atoms = j;
        if !call_drops(
            alloc,
            norm,
            parts,
            &system,
            clause,
            call,
            items_at(proofs, j),
        )? {
            return Ok(false);
        }
    }
    Ok(true)
}

/// Whether the lists drop from each clause's head to each call of its own component.
///
/// At each call, and for each list, the measures up to the call's place are tested over the rows of the atoms before
/// the call.
pub(crate) fn drops_hold<N: Norm>(
    alloc: Global,
    p: &Program,
    comps: &Components,
    norm: &N,
    parts: &LexParts,
) -> Result<bool, AllocError>
    requires components { AreComponents p.now comps.now }
    requires sizes { AreSizes p.now.preds parts.now.rows }
    requires lists { HaveLists p.now comps.now parts.now }
    requires drops { HaveDrops p.now comps.now parts.now }
    ensures { IfOk result (λ yes. IsTrue yes
        ↔ DropsHold (N.expression norm.now) p.now comps.now parts.now) }
{
    for k in 0..p.clauses() {
        if !clause_drops(alloc, p, comps, norm, parts, k + 1)? {
            return Ok(false);
        }
    }
    Ok(true)
}
