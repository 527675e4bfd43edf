//! The least family, from the rows of built-in predicates upward, component by component.

ghost use Rattle.std.specs.Prelude.{◌≡◌, ◌<◌, ◌≤◌, ◌-◌, ◌&&◌, ℕ, Bool, true, false, IfOk, OnOk, length, slice_get, Some};
ghost use Rattle.bool_diagrams.specs.Rows.{IsDiagram, Keeps, holds};
ghost use Rattle.call_components.specs.Partition.{AreComponents};
ghost use Rattle.cti_terms.specs.Listing.{IsProgram};
ghost use Rattle.cti_terms.specs.declared.clauses.Clause.{Clause};
ghost use Rattle.groundness.specs.Components.{AddsOnlyNeededIn, HaveStartRows, HasNoRows, UnmarkedAreClosedIn};
ghost use Rattle.termination_model.specs.chains.Chain.{is_member};
ghost use Rattle.termination_model.specs.grounds.LeastOver.{IsLeastOver};
ghost use Rattle.groundness.specs.Marks.{IsApart, IsMarked, work};
ghost use Rattle.groundness.specs.Setting.{IsSetting};
ghost use Rattle.groundness.specs.Missing.{all_missing};
ghost use Rattle.truth_rows.specs.Sets.{AreSets, family_of};
ghost use Rattle.groundness.specs.Sets.{AddsOnlyNeeded, AreBegun, KeepsOtherSets, set_as};
ghost use Rattle.termination_model.specs.grounds.Grounds.{IsClosedUnder, IsInside, IsLeast};

use crate::clause_lists::{heads, users};
use crate::clause_rows::clause_rows;
use crate::grounds::Grounds;
use crate::marks::Marks;
use crate::setting::Setting;
use bool_diagrams::{Diagram, Table};
use call_components::Components;
use cti_terms::{Builtin, Program};
use std::alloc::{AllocError, Global};
use term_size::Norm;

/// The least family of sets of truth rows that is closed under the clauses of a program.
///
/// Components go callees first. Out of memory, the table keeps its earlier diagrams.
pub fn solve<N: Norm>(
    alloc: Global,
    p: &Program,
    comps: &Components,
    norm: &N,
    table: &mut Table,
) -> Result<Grounds, AllocError>
    requires components { AreComponents p.now comps.now }
    ensures keeps { Keeps table.old table.new }
    ensures sets { IfOk result (AreSets p.now.preds table.new) }
    ensures least { IfOk result
        (λ g. IsLeast (N.truth norm.now) p.now (family_of p.now.preds table.new g)) }
{
    let users = users(alloc, p)?;
    let heads = heads(alloc, p)?;
    let setting = Setting {
        program: p,
        comps,
        norm,
        heads: &heads,
        users: &users,
    };
    let mut marks = Marks::none(alloc, p.clauses())?;
    let mut sets = vec![in alloc; table.truth(false); p.preds() as usize]?;
    solve_all(&setting, &mut marks, table, &mut sets)?;
    Ok(Grounds { sets })
}

/// Puts the sets of all components into their places, which have no rows before.
fn solve_all<N: Norm>(
    setting: &Setting<N>,
    marks: &mut Marks,
    table: &mut Table,
    sets: &mut [Diagram],
) -> Result<(), AllocError>
    requires setting { IsSetting setting.now }
    requires marks { length marks.old ≡ length setting.now.program.now.clauses }
    requires sets { AreSets setting.now.program.now.preds table.old sets.old }
    requires none { HasNoRows (family_of setting.now.program.now.preds table.old sets.old) }
    ensures keeps { Keeps table.old table.new }
    ensures sets { OnOk result (AreSets setting.now.program.now.preds table.new sets.new) }
    ensures least { OnOk result (IsLeast (N.truth setting.now.norm.now) setting.now.program.now
        (family_of setting.now.program.now.preds table.new sets.new)) }
{
    for c in 0..setting.comps.count() {
        solve_component(setting, c, marks, table, sets)?;
    }
    Ok(())
}

/// Puts into the places of a component's members their sets: the least ones above those of the predicates that they
/// call.
///
/// What the places of members hold before does not matter, nor do the marks there are. The sets of other predicates
/// stay as they are, diagram for diagram. Out of memory, the table keeps its earlier diagrams.
pub fn solve_component<N: Norm>(
    setting: &Setting<N>,
    c: u32,
    marks: &mut Marks,
    table: &mut Table,
    sets: &mut [Diagram],
) -> Result<(), AllocError>
    requires setting { IsSetting setting.now }
    requires inner { c < length setting.now.comps.now.members }
    requires marks { length marks.old ≡ length setting.now.program.now.clauses }
    requires sets { AreSets setting.now.program.now.preds table.old sets.old }
    ensures keeps { Keeps table.old table.new }
    ensures marks { OnOk result (length marks.new ≡ length setting.now.program.now.clauses) }
    ensures sets { OnOk result (AreSets setting.now.program.now.preds table.new sets.new) }
    ensures others { OnOk result
        (KeepsOtherSets (is_member setting.now.comps.now c) sets.old sets.new) }
    ensures least { OnOk result (IsLeastOver (N.truth setting.now.norm.now) setting.now.program.now
        (is_member setting.now.comps.now c)
        (family_of setting.now.program.now.preds table.old sets.old)
        (family_of setting.now.program.now.preds table.new sets.new)) }
{
    begin(setting, c, table, sets)?;
    add_all(setting, c, marks, table, sets)?;
    Ok(())
}

/// Puts the sets to begin with into the places of a component's members.
fn begin<N: Norm>(
    setting: &Setting<N>,
    c: u32,
    table: &mut Table,
    sets: &mut [Diagram],
) -> Result<(), AllocError>
    requires setting { IsSetting setting.now }
    requires inner { c < length setting.now.comps.now.members }
    requires sets { AreSets setting.now.program.now.preds table.old sets.old }
    ensures keeps { Keeps table.old table.new }
    ensures sets { OnOk result (AreSets setting.now.program.now.preds table.new sets.new) }
    ensures start { OnOk result
        (HaveStartRows setting.now.program.now.arithmetic (is_member setting.now.comps.now c)
        (family_of setting.now.program.now.preds table.new sets.new)) }
    ensures others { OnOk result
        (KeepsOtherSets (is_member setting.now.comps.now c) sets.old sets.new) }
{
    let both = rigid_pair(table)?;
    let none = table.truth(false);
    begin_members(setting.program, setting.comps, c, none, both, sets);
    Ok(())
}

/// The rows of two rigid arguments.
fn rigid_pair(table: &mut Table) -> Result<Diagram, AllocError>
    ensures keeps { Keeps table.old table.new }
    ensures known { IfOk result (IsDiagram table.new) }
    ensures rows { IfOk result (λ d. (row : ℕ → Bool) → holds table.new d row ≡ (row 0 && row 1)) }
{
    let first = table.var(0)?;
    let second = table.var(1)?;
    table.and(first, second)
}

/// Puts in the sets that a component's members begin with: `both` has the row of two rigid arguments, and `none` has
/// none.
fn begin_members(
    p: &Program,
    comps: &Components,
    c: u32,
    none: Diagram,
    both: Diagram,
    sets: &mut [Diagram],
)
    requires components { AreComponents p.now comps.now }
    requires inner { c < length comps.now.members }
    requires each { length sets.old ≡ length p.now.preds }
    ensures { AreBegun p.now.arithmetic (is_member comps.now c) none both sets.old sets.new }
{
    for member in comps.members(c) {
        sets[member.0 as usize] = first_set(p.builtin(*member), none, both);
    }
}

/// The set of a predicate to begin with: that of a built-in one has a row.
fn first_set(kind: Option<Builtin>, none: Diagram, both: Diagram) -> Diagram
    ensures { result ≡ set_as none both kind }
{
    match kind {
        Some(_) => both,
        None => none,
    }
}

/// Adds rows to the sets of a component's members until they are closed under its clauses. Those of other predicates
/// stay.
///
/// It begins with a mark for each of the component's clauses. It takes a mark away and adds what the clause gives;
/// where that is a new row, the clauses that have the head's predicate in their bodies get marks. It ends without
/// marks.
fn add_all<N: Norm>(
    setting: &Setting<N>,
    c: u32,
    marks: &mut Marks,
    table: &mut Table,
    sets: &mut [Diagram],
) -> Result<(), AllocError>
    requires setting { IsSetting setting.now }
    requires inner { c < length setting.now.comps.now.members }
    requires marks { length marks.old ≡ length setting.now.program.now.clauses }
    requires sets { AreSets setting.now.program.now.preds table.old sets.old }
    requires start { HaveStartRows setting.now.program.now.arithmetic
        (is_member setting.now.comps.now c)
        (family_of setting.now.program.now.preds table.old sets.old) }
    ensures keeps { Keeps table.old table.new }
    ensures marks { OnOk result (length marks.new ≡ length setting.now.program.now.clauses) }
    ensures sets { OnOk result (AreSets setting.now.program.now.preds table.new sets.new) }
    ensures others { OnOk result
        (KeepsOtherSets (is_member setting.now.comps.now c) sets.old sets.new) }
    ensures least { OnOk result (IsLeastOver (N.truth setting.now.norm.now) setting.now.program.now
        (is_member setting.now.comps.now c)
        (family_of setting.now.program.now.preds table.old sets.old)
        (family_of setting.now.program.now.preds table.new sets.new)) }
{
    marks.mark_members(setting.heads, setting.comps.members(c))?;
    while add_next(setting, c, marks, table, sets)? {}
    Ok(())
}

/// Takes the next mark away, adds what its clause gives, if it is one of the component's, and marks the clauses that
/// ask for it. It answers whether there was a mark.
fn add_next<N: Norm>(
    setting: &Setting<N>,
    c: u32,
    marks: &mut Marks,
    table: &mut Table,
    sets: &mut [Diagram],
) -> Result<bool, AllocError>
    requires setting { IsSetting setting.now }
    requires marks { length marks.old ≡ length setting.now.program.now.clauses }
    requires sets { AreSets setting.now.program.now.preds table.old sets.old }
    requires closed { UnmarkedAreClosedIn (N.truth setting.now.norm.now) setting.now.program.now
        (is_member setting.now.comps.now c) marks.old
        (family_of setting.now.program.now.preds table.old sets.old) }
    ensures keeps { Keeps table.old table.new }
    ensures sets { IfOk result (λ more. AreSets setting.now.program.now.preds table.new sets.new) }
    ensures needed { IfOk result
        (λ more. AddsOnlyNeededIn (N.truth setting.now.norm.now) setting.now.program.now
        (is_member setting.now.comps.now c)
        (family_of setting.now.program.now.preds table.old sets.old)
        (family_of setting.now.program.now.preds table.new sets.new)) }
    ensures inside { IfOk result
        (λ more. IsInside (family_of setting.now.program.now.preds table.old sets.old)
        (family_of setting.now.program.now.preds table.new sets.new)) }
    ensures others { IfOk result
        (λ more. KeepsOtherSets (is_member setting.now.comps.now c) sets.old sets.new) }
    ensures each { IfOk result (λ more. length marks.new ≡ length setting.now.program.now.clauses) }
    ensures closed { IfOk result
        (λ more. UnmarkedAreClosedIn (N.truth setting.now.norm.now) setting.now.program.now
        (is_member setting.now.comps.now c) marks.new
        (family_of setting.now.program.now.preds table.new sets.new)) }
    ensures less { IfOk result (λ more. more ≡ true
        → work setting.now.program.now.preds table.new sets.new marks.new < work
        setting.now.program.now.preds table.old sets.old marks.old) }
    ensures done { IfOk result (λ more. more ≡ false → (j : ℕ) → IsMarked marks.new j → ⊥) }
{
    let Some(k) = marks.take() else {
        return Ok(false);
    };
    let number = k + 1;
    let head = setting.program.clause(number).head.pred;
    if setting.comps.of(head) != c {
        return Ok(true);
    }
    let grew = add_rows(setting.program, setting.norm, table, sets, number)?;
    if !grew {
        return Ok(true);
    }
    marks.mark_all(setting.users.of(head))?;
    Ok(true)
}

/// Adds what a clause gives, and answers whether that was a new row.
fn add_rows<N: Norm>(
    p: &Program,
    norm: &N,
    table: &mut Table,
    sets: &mut [Diagram],
    k: u32,
) -> Result<bool, AllocError>
    requires program { IsProgram p.now }
    requires sets { AreSets p.now.preds table.old sets.old }
    requires first { 1 ≤ k }
    requires last { k ≤ length p.now.clauses }
    ensures keeps { Keeps table.old table.new }
    ensures sets { IfOk result (λ grew. AreSets p.now.preds table.new sets.new) }
    ensures needed { IfOk result (λ grew. (x : Clause) → slice_get p.now.clauses (k - 1) ≡ Some x
        → AddsOnlyNeeded (N.truth norm.now) x (family_of p.now.preds table.old sets.old)
        (family_of p.now.preds table.new sets.new)) }
    ensures less { IfOk result (λ grew. grew ≡ true
        → all_missing p.now.preds table.new sets.new < all_missing p.now.preds table.old sets.old) }
    ensures same { IfOk result (λ grew. grew ≡ false → sets.new ≡ sets.old) }
    ensures inside { IfOk result
        (λ grew. IsInside (family_of p.now.preds table.old sets.old)
        (family_of p.now.preds table.new sets.new)) }
    ensures others { IfOk result (λ grew. (c : Clause) → slice_get p.now.clauses (k - 1) ≡ Some c
        → (r : ℕ) → ((r ≡ c.head.pred.0) → ⊥) → slice_get sets.new r ≡ slice_get sets.old r) }
    ensures closed { IfOk result (λ grew. (c : Clause) → slice_get p.now.clauses (k - 1) ≡ Some c
        → (grew ≡ true → IsApart c c.head.pred.0)
        → IsClosedUnder (N.truth norm.now) (family_of p.now.preds table.new sets.new) c) }
{
    let clause = p.clause(k);
    let given = clause_rows(norm, table, sets, clause)?;
    let place = clause.head.pred.0 as usize;
    let joined = table.or(sets[place], given)?;
    if table.same(sets[place], joined) {
        return Ok(false);
    }
    sets[place] = joined;
    Ok(true)
}
