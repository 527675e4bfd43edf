//! The search downward: broken rows of clauses with marks are removed until no clause has a mark.

ghost use Rattle.std.specs.Prelude.{◌≡◌, ◌≤◌, ◌<◌, ◌-◌, ℕ, true, false, IfOk, List, OnOk, length, slice_get, Some};
ghost use Rattle.truth_rows.specs.Rules.{KeepsSets, same_rank};
ghost use Rattle.truth_rows.specs.Sets.{AreSets};
ghost use Rattle.bool_diagrams.specs.Rows.{Keeps};
ghost use Rattle.cti_terms.specs.declared.clauses.Clause.{Clause};
ghost use Rattle.groundness.specs.Marks.{IsApart, IsMarked};
ghost use Rattle.precond_fixpoint.specs.Removing.{AreCovering, Needed, RemovesBroken, UnmarkedKeep, all_present, is_ranked, work};
ghost use Rattle.precond_fixpoint.specs.Greatest.{IsGreatestIn};
ghost use Rattle.precond_fixpoint.specs.Setting.{IsComponent, IsSetting, rows_of};
ghost use Rattle.termination_model.specs.grounds.Grounds.{IsInside};

use crate::breaking::broken_rows;
use crate::setting::{Component, Setting};
use bool_diagrams::{Diagram, Table};
use groundness::Marks;
use std::alloc::AllocError;
use term_size::Norm;
use truth_rows::ClauseRule;

/// Removes the rows of a clause's head from which the rule is broken, and says whether there was one.
fn remove_rows<N: Norm>(
    setting: &Setting<N>,
    component: &Component,
    table: &mut Table,
    sets: &mut [Diagram],
    k: u32,
) -> Result<bool, AllocError>
    requires setting { IsSetting setting.now table.old }
    requires component { IsComponent setting.now component.now table.old }
    requires sets { AreSets setting.now.program.now.preds table.old sets.old }
    requires first { 1 ≤ k }
    requires last { k ≤ length setting.now.program.now.clauses }
    ensures keeps { Keeps table.old table.new }
    ensures sets { IfOk result
        (λ shrank. AreSets setting.now.program.now.preds table.new sets.new) }
    ensures removed { IfOk result (λ shrank. (c : Clause)
        → slice_get setting.now.program.now.clauses (k - 1) ≡ Some c
        → RemovesBroken
        (N.truth setting.now.norm.now) setting.now.program.now table.old table.new setting.now.ranks.now
        setting.now.grounds.now component.now.allowed.now sets.old sets.new c) }
    ensures inside { IfOk result
        (λ shrank. IsInside (rows_of setting.now table.new sets.new)
        (rows_of setting.now table.old sets.old)) }
    ensures less { IfOk result (λ shrank. shrank ≡ true
        → all_present setting.now.program.now.preds table.new sets.new < all_present
        setting.now.program.now.preds table.old sets.old) }
    ensures same { IfOk result (λ shrank. shrank ≡ false → sets.new ≡ sets.old) }
    ensures others { IfOk result (λ shrank. (c : Clause)
        → slice_get setting.now.program.now.clauses (k - 1) ≡ Some c
        → (r : ℕ) → ((r ≡ c.head.pred.0) → ⊥)
        → rows_of setting.now table.new sets.new r ≡ rows_of setting.now table.old sets.old r) }
    ensures rule { IfOk result (λ shrank. (c : Clause)
        → slice_get setting.now.program.now.clauses (k - 1) ≡ Some c
        → (shrank ≡ true → IsApart c c.head.pred.0)
        → KeepsSets (N.truth setting.now.norm.now) (rows_of setting.now table.new sets.new)
        (rows_of setting.now table.old component.now.allowed.now)
        (rows_of setting.now table.old setting.now.grounds.now)
        (λ q. same_rank setting.now.ranks.now q c.head.pred.0) c) }
{
    let _program = setting.program.preds();
    let clause = setting.program.clause(k);
    let rule = ClauseRule {
        ranks: setting.ranks,
        grounds: setting.grounds,
        pre: sets,
        allowed: component.allowed,
        clause,
    };
    let broken = broken_rows(setting.norm, table, &rule)?;
    let unbroken = table.not(broken)?;
    let place = clause.head.pred.0 as usize;
    let kept = table.and(sets[place], unbroken)?;
    if table.same(sets[place], kept) {
        return Ok(false);
    }
    sets[place] = kept;
    Ok(true)
}

/// Removes the broken rows of a clause of the component. Does nothing for any other clause.
fn remove_member<N: Norm>(
    setting: &Setting<N>,
    component: &Component,
    table: &mut Table,
    sets: &mut [Diagram],
    k: u32,
) -> Result<bool, AllocError>
    requires setting { IsSetting setting.now table.old }
    requires component { IsComponent setting.now component.now table.old }
    requires sets { AreSets setting.now.program.now.preds table.old sets.old }
    requires first { 1 ≤ k }
    requires last { k ≤ length setting.now.program.now.clauses }
    ensures keeps { Keeps table.old table.new }
    ensures sets { IfOk result
        (λ shrank. AreSets setting.now.program.now.preds table.new sets.new) }
    ensures needed { IfOk result
        (λ shrank. Needed
        (N.truth setting.now.norm.now) setting.now.program.now table.old table.new setting.now.ranks.now
        component.now.rank setting.now.grounds.now component.now.allowed.now sets.old sets.new) }
    ensures inside { IfOk result
        (λ shrank. IsInside (rows_of setting.now table.new sets.new)
        (rows_of setting.now table.old sets.old)) }
    ensures less { IfOk result (λ shrank. shrank ≡ true
        → all_present setting.now.program.now.preds table.new sets.new < all_present
        setting.now.program.now.preds table.old sets.old) }
    ensures same { IfOk result (λ shrank. shrank ≡ false → sets.new ≡ sets.old) }
    ensures others { IfOk result (λ shrank. (c : Clause)
        → slice_get setting.now.program.now.clauses (k - 1) ≡ Some c
        → (r : ℕ) → ((r ≡ c.head.pred.0) → ⊥)
        → rows_of setting.now table.new sets.new r ≡ rows_of setting.now table.old sets.old r) }
    ensures rule { IfOk result (λ shrank. (c : Clause)
        → slice_get setting.now.program.now.clauses (k - 1) ≡ Some c
        → (shrank ≡ true → IsApart c c.head.pred.0)
        → is_ranked setting.now.ranks.now component.now.rank c.head.pred.0 ≡ true
        → KeepsSets (N.truth setting.now.norm.now) (rows_of setting.now table.new sets.new)
        (rows_of setting.now table.old component.now.allowed.now)
        (rows_of setting.now table.old setting.now.grounds.now)
        (is_ranked setting.now.ranks.now component.now.rank) c) }
{
    let _program = setting.program.preds();
    let head = setting.program.clause(k).head.pred;
    if setting.ranks[head.0 as usize] != component.rank {
        return Ok(false);
    }
    let shrank = remove_rows(setting, component, table, sets, k)?;
    Ok(shrank)
}

/// Makes covering rows of a mapping into the component's greatest sets for it, by removing rows.
///
/// It begins with a mark for each clause of the component. It takes a mark away and removes the clause's broken rows;
/// where there was one, the clauses that call the head's predicate get marks. It ends when no clause has a mark.
pub(crate) fn shrink<N: Norm>(
    setting: &Setting<N>,
    component: &Component,
    table: &mut Table,
    marks: &mut Marks,
    sets: &mut [Diagram],
) -> Result<(), AllocError>
    requires setting { IsSetting setting.now table.old }
    requires component { IsComponent setting.now component.now table.old }
    requires marks { length marks.old ≡ length setting.now.program.now.clauses }
    requires sets { AreSets setting.now.program.now.preds table.old sets.old }
    ensures keeps { Keeps table.old table.new }
    ensures marks { OnOk result (length marks.new ≡ length setting.now.program.now.clauses) }
    ensures sets { OnOk result (AreSets setting.now.program.now.preds table.new sets.new) }
    ensures greatest { OnOk result ((coefficients : ℕ → List ℕ)
        → AreCovering setting.now.program.now.preds
        (is_ranked setting.now.ranks.now component.now.rank) coefficients
        (rows_of setting.now table.old sets.old)
        → IsGreatestIn (N.truth setting.now.norm.now) setting.now.program.now
        (is_ranked setting.now.ranks.now component.now.rank)
        (rows_of setting.now table.old component.now.allowed.now)
        (rows_of setting.now table.old setting.now.grounds.now) coefficients
        (rows_of setting.now table.new sets.new)) }
{
    marks.mark_members(setting.heads, component.members)?;
    while remove_next(setting, component, table, marks, sets)? {}
    Ok(())
}

/// Takes the next mark away, removes the broken rows of its clause and marks the clauses that call the head's predicate
/// where there was one. It says whether there was a mark.
fn remove_next<N: Norm>(
    setting: &Setting<N>,
    component: &Component,
    table: &mut Table,
    marks: &mut Marks,
    sets: &mut [Diagram],
) -> Result<bool, AllocError>
    requires setting { IsSetting setting.now table.old }
    requires component { IsComponent setting.now component.now table.old }
    requires marks { length marks.old ≡ length setting.now.program.now.clauses }
    requires sets { AreSets setting.now.program.now.preds table.old sets.old }
    requires kept { UnmarkedKeep
        (N.truth setting.now.norm.now) setting.now.program.now setting.now.ranks.now component.now.rank
        marks.old (rows_of setting.now table.old sets.old)
        (rows_of setting.now table.old component.now.allowed.now)
        (rows_of setting.now table.old setting.now.grounds.now) }
    ensures keeps { Keeps table.old table.new }
    ensures marks { IfOk result
        (λ more. length marks.new ≡ length setting.now.program.now.clauses) }
    ensures sets { IfOk result (λ more. AreSets setting.now.program.now.preds table.new sets.new) }
    ensures needed { IfOk result
        (λ more. Needed
        (N.truth setting.now.norm.now) setting.now.program.now table.old table.new setting.now.ranks.now
        component.now.rank setting.now.grounds.now component.now.allowed.now sets.old sets.new) }
    ensures inside { IfOk result
        (λ more. IsInside (rows_of setting.now table.new sets.new)
        (rows_of setting.now table.old sets.old)) }
    ensures kept { IfOk result
        (λ more. UnmarkedKeep
        (N.truth setting.now.norm.now) setting.now.program.now setting.now.ranks.now component.now.rank
        marks.new (rows_of setting.now table.new sets.new)
        (rows_of setting.now table.old component.now.allowed.now)
        (rows_of setting.now table.old setting.now.grounds.now)) }
    ensures less { IfOk result (λ more. more ≡ true
        → work setting.now.program.now.preds table.new sets.new marks.new < work
        setting.now.program.now.preds table.old sets.old marks.old) }
    ensures done { IfOk result (λ more. more ≡ false → (j : ℕ) → IsMarked marks.new j → ⊥) }
{
    let Some(k) = marks.take() else {
        return Ok(false);
    };
    let number = k + 1;
    let shrank = remove_member(setting, component, table, sets, number)?;
    if !shrank {
        return Ok(true);
    }
    marks.mark_all(setting.users.of(setting.program.clause(number).head.pred))?;
    Ok(true)
}
