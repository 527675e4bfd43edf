//! The ground rows of a program after an edit.

ghost use Rattle.std.specs.Prelude.{◌≡◌, ◌+◌, ◌<◌, IfOk, OnOk, length};
ghost use Rattle.bool_diagrams.specs.Rows.{Keeps};
ghost use Rattle.truth_rows.specs.Sets.{AreSets, family_of};
ghost use Rattle.solved_program.specs.Carried.{AreCarriedValues, IsCarriedValue};
ghost use Rattle.solved_program.specs.Grounds.{AreCarriedSets, AreGroundSources, AreGroundsOf, AreNewGrounds, AreOldGrounds};
ghost use Rattle.solved_program.specs.Grounds.{AreSolvedGrounds, KeepGrounds};
ghost use Rattle.solved_program.specs.Kept.{IsEdit};
ghost use Rattle.solved_program.specs.Standing.{KeepValues};

use crate::edit::Edit;
use crate::edit_clauses::EditClauses;
use crate::marking::{mark_all, mark_same_sets};
use bool_diagrams::{Diagram, Table};
use component_clauses::own_clauses;
use cti_terms::PredId;
use groundness::{ClauseLists, Marks, Setting, heads, solve_component, users};
use std::alloc::{AllocError, Global};
use term_size::Norm;

/// The diagram that the predicate of this name and arity had, if it was there.
fn carried_set(edit: &Edit<'_>, old: &[Diagram], none: Diagram, pred: PredId) -> Diagram
    requires pred { pred.0 < length edit.now.after.now.preds }
    requires each { length old.now ≡ length edit.now.before.now.preds }
    ensures { IsCarriedValue edit.now old.now none pred.0 result }
{
    let _program = edit.before.preds();
    let pred = edit.after.pred(pred);
    match edit.before.find(pred.name, pred.arity) {
        Some(before) => old[before.0 as usize],
        None => none,
    }
}

/// For each predicate after an edit the diagram that it had, if it was there, and else `none`.
pub fn carried_sets(
    alloc: Global,
    edit: &Edit<'_>,
    old: &[Diagram],
    none: Diagram,
) -> Result<Vec<Diagram>, AllocError>
    requires { length old.now ≡ length edit.now.before.now.preds }
    ensures each { IfOk result (λ sets. length sets.items ≡ length edit.now.after.now.preds) }
    ensures carried { IfOk result (λ sets. AreCarriedValues edit.now old.now none sets.items) }
{
    let mut sets = Vec::new(alloc);
    for q in 0..edit.after.preds() {
        sets.push(carried_set(edit, old, none, PredId(q)))?;
    }
    Ok(sets)
}

/// The carried sets of each predicate, in a table. A predicate that was not there has no rows.
fn carried_grounds(
    alloc: Global,
    edit: &Edit<'_>,
    old: &[Diagram],
    table: &Table,
) -> Result<Vec<Diagram>, AllocError>
    requires old { AreSets edit.now.before.now.preds table.now old.now }
    ensures { IfOk result (λ sets. AreCarriedSets edit.now table.now old.now sets.items) }
{
    let none = table.truth(false);
    let sets = carried_sets(alloc, edit, old, none)?;
    Ok(sets)
}

/// What the ground rows after an edit are made from.
pub(crate) struct GroundSources<'a, N> {
    pub(crate) clauses: &'a EditClauses<'a>,
    pub(crate) norm: &'a N,
    /// For each predicate after the edit the clauses that have it in their heads.
    pub(crate) heads: &'a ClauseLists,
    /// For each predicate after the edit the clauses that have it in their bodies.
    pub(crate) users: &'a ClauseLists,
    /// The diagrams from before the edit.
    pub(crate) old: &'a [Diagram],
    /// The diagrams from before the edit under the new numbers of predicates.
    pub(crate) carried: &'a [Diagram],
}

impl<N> Drop for GroundSources<'_, N> {
    fn drop(self) {
        let GroundSources {
            clauses: _,
            norm: _,
            heads: _,
            users: _,
            old: _,
            carried: _,
        } = self;
    }
}

/// Takes over one more component, whose diagrams are in their places, or solves it. Members whose rows stay are
/// marked.
fn resolve<N: Norm>(
    sources: &GroundSources<N>,
    c: u32,
    marks: &mut Marks,
    table: &mut Table,
    sets: &mut [Diagram],
    stayed: &mut [bool],
) -> Result<(), AllocError>
    requires sources { AreGroundSources sources.now table.old }
    requires old { AreOldGrounds (N.truth sources.now.norm.now) sources.now table.old }
    requires inner { c < length sources.now.clauses.now.edit.now.components.now.members }
    requires marks { length marks.old ≡ length sources.now.clauses.now.edit.now.after.now.clauses }
    requires found { AreGroundsOf
        (N.truth sources.now.norm.now) sources.now c table.old sets.old stayed.old }
    ensures keeps { Keeps table.old table.new }
    ensures marks { OnOk result
        (length marks.new ≡ length sources.now.clauses.now.edit.now.after.now.clauses) }
    ensures found { OnOk result
        (AreGroundsOf (N.truth sources.now.norm.now) sources.now
        (c + 1) table.new sets.new stayed.new) }
{
    let edit = sources.clauses.edit;
    let _before = edit.before.clauses();
    let _after = edit.after.clauses();
    match sources.clauses.standing(c, stayed) {
        Some(_) => {
            mark_all(edit, c, stayed);
            Ok(())
        }
        None => {
            let setting = Setting {
                program: edit.after,
                comps: edit.components,
                norm: sources.norm,
                heads: sources.heads,
                users: sources.users,
            };
            solve_component(&setting, c, marks, table, sets)?;
            mark_same_sets(edit, c, table, sources.carried, sets, stayed);
            Ok(())
        }
    }
}

/// Solves or keeps each component, callees first.
fn resolve_each<N: Norm>(
    sources: &GroundSources<N>,
    marks: &mut Marks,
    table: &mut Table,
    sets: &mut [Diagram],
    stayed: &mut [bool],
) -> Result<(), AllocError>
    requires sources { AreGroundSources sources.now table.old }
    requires old { AreOldGrounds (N.truth sources.now.norm.now) sources.now table.old }
    requires marks { length marks.old ≡ length sources.now.clauses.now.edit.now.after.now.clauses }
    requires sets { sets.old ≡ sources.now.carried.now }
    requires stayed { length stayed.old ≡ length sources.now.clauses.now.edit.now.after.now.preds }
    ensures keeps { Keeps table.old table.new }
    ensures solved { OnOk result
        (AreNewGrounds (N.truth sources.now.norm.now) sources.now table.new sets.new) }
    ensures kept { OnOk result (KeepGrounds sources.now table.old table.new sets.new) }
{
    for c in 0..sources.clauses.edit.components.count() {
        resolve(sources, c, marks, table, sets, stayed)?;
    }
    Ok(())
}

/// The ground rows after an edit, from the diagrams that were there before.
fn resolve_all<N: Norm>(
    alloc: Global,
    sources: &GroundSources<N>,
    table: &mut Table,
) -> Result<Vec<Diagram>, AllocError>
    requires sources { AreGroundSources sources.now table.old }
    requires old { AreOldGrounds (N.truth sources.now.norm.now) sources.now table.old }
    ensures keeps { Keeps table.old table.new }
    ensures solved { IfOk result
        (λ sets. AreNewGrounds (N.truth sources.now.norm.now) sources.now table.new sets.items) }
    ensures kept { IfOk result (λ sets. KeepGrounds sources.now table.old table.new sets.items) }
{
    let after = sources.clauses.edit.after;
    let mut marks = Marks::none(alloc, after.clauses())?;
    let mut stayed = vec![in alloc; false; after.preds() as usize]?;
    let mut sets = Vec::from_slice(alloc, sources.carried)?;
    resolve_each(sources, &mut marks, table, &mut sets, &mut stayed)?;
    Ok(sets)
}

/// The ground rows of a program after an edit, from those before it, in the same table.
///
/// A component keeps its diagrams where its clauses are those of an old component, all of them and in their order, and
/// the predicates that they call have the rows that they had. Each other component is solved. Out of memory, the table
/// keeps its earlier diagrams.
pub fn resolve_grounds<N: Norm>(
    alloc: Global,
    norm: &N,
    edit: &Edit<'_>,
    old: &[Diagram],
    table: &mut Table,
) -> Result<Vec<Diagram>, AllocError>
    requires edit { IsEdit edit.now }
    requires old { AreSolvedGrounds
        (N.truth norm.now) edit.now.before.now edit.now.components_before.now table.old old.now }
    ensures keeps { Keeps table.old table.new }

    // Each component has its least rows, also where it was taken over. One that stands for an old one has the rows
    // that it had.
    ensures solved { IfOk result
        (λ sets. AreSolvedGrounds (N.truth norm.now) edit.now.after.now edit.now.components.now
        table.new sets.items) }
    ensures kept { IfOk result
        (λ sets. KeepValues edit.now (family_of edit.now.before.now.preds table.old old.now)
        (family_of edit.now.after.now.preds table.new sets.items)) }
{
    let own_before = own_clauses(alloc, edit.before, edit.components_before)?;
    let own = own_clauses(alloc, edit.after, edit.components)?;
    let heads = heads(alloc, edit.after)?;
    let users = users(alloc, edit.after)?;
    let carried = carried_grounds(alloc, edit, old, table)?;
    let clauses = EditClauses {
        edit,
        own_before: own_before.as_slice(),
        own: own.as_slice(),
    };
    let sources = GroundSources {
        clauses: &clauses,
        norm,
        heads: &heads,
        users: &users,
        old,
        carried: carried.as_slice(),
    };
    resolve_all(alloc, &sources, table)
}
