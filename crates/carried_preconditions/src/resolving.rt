//! The preconditions of a program after an edit.

ghost use Rattle.std.specs.Prelude.{◌+◌, ◌<◌, IfOk, OnOk, length};
ghost use Rattle.bool_diagrams.specs.Rows.{Keeps};
ghost use Rattle.solved_program.specs.EditClauses.{AreEditClauses};
ghost use Rattle.solved_program.specs.Kept.{IsEdit};
ghost use Rattle.carried_preconditions.specs.Resolving.{AreNew, AreOld, AreRenewed, AreSources, AreUpTo};
ghost use Rattle.carried_preconditions.specs.Resolving.{IsNext, KeepDiagrams, StandsKept};
ghost use Rattle.carried_preconditions.specs.Solved.{AreInputs, ArePreconditions, KeepPreconditions};

use crate::carrying::carried_lists;
use crate::preconditions::{Inputs, PreconditionsBefore, SolvedPreconditions};
use crate::progress::{Progress, Room};
use crate::sources::PreconditionSources;
use crate::standing::{mark_stayed, stands};
use bool_diagrams::Table;
use component_clauses::own_clauses;
use groundness::{heads, users};
use precond_fixpoint::{Setting, component_ranks, solve_component};
use solved_program::{Edit, EditClauses, carried_sets};
use std::alloc::{AllocError, Global};
use term_size::Norm;

/// Solves one more component, which is not to be taken over, above the sets so far.
fn solve_anew<N: Norm>(
    alloc: Global,
    sources: &PreconditionSources<N>,
    c: u32,
    table: &mut Table,
    progress: &mut Progress,
) -> Result<(), AllocError>
    requires next { IsNext (N.truth sources.now.norm.now) sources.now c table.old progress.old }
    requires lost { StandsKept sources.now table.old progress.old.stayed.items c → ⊥ }
    ensures keeps { Keeps table.old table.new }
    ensures found { OnOk result (AreRenewed (N.truth sources.now.norm.now) sources.now c
        table.old table.new progress.old progress.new) }
{
    let edit = sources.clauses.edit;
    let _before = edit.before.clauses();
    let _after = edit.after.clauses();
    let setting = Setting {
        program: edit.after,
        comps: edit.components,
        norm: sources.norm,
        ranks: sources.ranks,
        heads: sources.heads,
        users: sources.users,
        grounds: sources.inputs.grounds,
        levels: sources.inputs.levels,
    };
    solve_component(
        alloc,
        &setting,
        table,
        c,
        &mut progress.room.marks,
        &mut progress.room.sets,
        &mut progress.sets,
        &mut progress.allowed,
    )?;
    Ok(())
}

/// Takes over one more component, whose sets are in their places, or solves it.
fn renew<N: Norm>(
    alloc: Global,
    sources: &PreconditionSources<N>,
    c: u32,
    table: &mut Table,
    progress: &mut Progress,
) -> Result<(), AllocError>
    requires { IsNext (N.truth sources.now.norm.now) sources.now c table.old progress.old }
    ensures keeps { Keeps table.old table.new }
    ensures found { OnOk result (AreRenewed (N.truth sources.now.norm.now) sources.now c
        table.old table.new progress.old progress.new) }
{
    let edit = sources.clauses.edit;
    let _before = edit.before.clauses();
    let _after = edit.after.clauses();
    if stands(sources, c, table, &progress.stayed) {
        return Ok(());
    }
    solve_anew(alloc, sources, c, table, progress)
}

/// Solves a component, or keeps its sets, and marks the members whose values stayed.
fn resolve<N: Norm>(
    alloc: Global,
    sources: &PreconditionSources<N>,
    c: u32,
    table: &mut Table,
    progress: &mut Progress,
) -> Result<(), AllocError>
    requires { IsNext (N.truth sources.now.norm.now) sources.now c table.old progress.old }
    ensures keeps { Keeps table.old table.new }
    ensures found { OnOk result (AreUpTo (N.truth sources.now.norm.now) sources.now
        (c + 1) table.new progress.new) }
{
    let _before = sources.clauses.edit.before.clauses();
    let _after = sources.clauses.edit.after.clauses();
    renew(alloc, sources, c, table, progress)?;
    mark_stayed(sources, c, table, &progress.allowed, &mut progress.stayed);
    Ok(())
}

/// Solves or keeps each component, callees first.
fn resolve_each<N: Norm>(
    alloc: Global,
    sources: &PreconditionSources<N>,
    table: &mut Table,
    progress: &mut Progress,
) -> Result<(), AllocError>
    requires sources { AreSources sources.now table.old }
    requires old { AreOld (N.truth sources.now.norm.now) sources.now table.old }
    requires found { AreUpTo (N.truth sources.now.norm.now) sources.now 0 table.old progress.old }
    ensures keeps { Keeps table.old table.new }
    ensures found { OnOk result (AreUpTo (N.truth sources.now.norm.now) sources.now
        (length sources.now.clauses.now.edit.now.components.now.members) table.new progress.new) }
{
    let _before = sources.clauses.edit.before.clauses();
    for c in 0..sources.clauses.edit.components.count() {
        resolve(alloc, sources, c, table, progress)?;
    }
    Ok(())
}

/// What the components begin with: the sets from before the edit.
fn begin<N: Norm>(
    alloc: Global,
    sources: &PreconditionSources<N>,
    table: &Table,
) -> Result<Progress, AllocError>
    requires sources { AreSources sources.now table.now }
    requires old { AreOld (N.truth sources.now.norm.now) sources.now table.now }
    ensures { IfOk result (AreUpTo (N.truth sources.now.norm.now) sources.now 0 table.now) }
{
    let edit = sources.clauses.edit;
    let old = sources.before.solved;
    let _before = edit.before.clauses();
    let none = table.truth(false);
    let room = Room::new(alloc, edit.after, none, table)?;
    let sets = carried_lists(alloc, edit, &old.sets)?;
    let allowed = carried_sets(alloc, edit, old.allowed.as_slice(), none)?;
    let stayed = vec![in alloc; false; edit.after.preds() as usize]?;
    Ok(Progress {
        room,
        sets,
        allowed,
        stayed,
    })
}

/// The preconditions after an edit, from the sets that were there before.
fn resolve_all<N: Norm>(
    alloc: Global,
    sources: &PreconditionSources<N>,
    table: &mut Table,
) -> Result<SolvedPreconditions, AllocError>
    requires sources { AreSources sources.now table.old }
    requires old { AreOld (N.truth sources.now.norm.now) sources.now table.old }
    ensures keeps { Keeps table.old table.new }
    ensures solved { IfOk result (AreNew (N.truth sources.now.norm.now) sources.now table.new) }
    ensures kept { IfOk result (KeepDiagrams sources.now table.old table.new) }
{
    let mut progress = begin(alloc, sources, table)?;
    resolve_each(alloc, sources, table, &mut progress)?;
    Ok(progress.into_solved())
}

/// The preconditions after an edit, by the clauses of all components.
fn resolve_edit<N: Norm>(
    alloc: Global,
    norm: &N,
    clauses: &EditClauses<'_>,
    before: &PreconditionsBefore<'_>,
    inputs: &Inputs<'_>,
    table: &mut Table,
) -> Result<SolvedPreconditions, AllocError>
    requires clauses { AreEditClauses clauses.now }
    requires old_inputs { AreInputs clauses.now.edit.now.before.now
        clauses.now.edit.now.components_before.now table.old before.now.inputs }
    requires old { ArePreconditions (N.truth norm.now) clauses.now.edit.now.before.now
        clauses.now.edit.now.components_before.now
        table.old before.now.inputs before.now.solved.now }
    requires inputs { AreInputs clauses.now.edit.now.after.now
        clauses.now.edit.now.components.now table.old inputs.now }
    ensures keeps { Keeps table.old table.new }
    ensures solved { IfOk result (ArePreconditions (N.truth norm.now)
        clauses.now.edit.now.after.now clauses.now.edit.now.components.now table.new inputs.now) }
    ensures kept { IfOk result
        (KeepPreconditions clauses.now.edit.now table.old table.new before.now inputs.now) }
{
    let edit = clauses.edit;
    let ranks = component_ranks(alloc, edit.after, edit.components)?;
    let heads = heads(alloc, edit.after)?;
    let users = users(alloc, edit.after)?;
    let sources = PreconditionSources {
        clauses,
        norm,
        ranks: ranks.as_slice(),
        heads: &heads,
        users: &users,
        inputs,
        before,
    };
    resolve_all(alloc, &sources, table)
}

/// The greatest preconditions of a program after an edit, from those before it, in the same table.
///
/// A component keeps its diagrams where its clauses are those of an old component, all of them and in their order, its
/// members have the ground rows and the coefficients that they had, and the predicates that they call have the ground
/// rows that they had, and the same rows allowed. Each other component is solved. Out of memory, the table keeps its
/// earlier diagrams.
pub fn resolve_preconditions<N: Norm>(
    alloc: Global,
    norm: &N,
    edit: &Edit<'_>,
    before: &PreconditionsBefore<'_>,
    inputs: &Inputs<'_>,
    table: &mut Table,
) -> Result<SolvedPreconditions, AllocError>
    requires edit { IsEdit edit.now }
    requires old_inputs { AreInputs edit.now.before.now edit.now.components_before.now
        table.old before.now.inputs }
    requires old { ArePreconditions (N.truth norm.now) edit.now.before.now
        edit.now.components_before.now table.old before.now.inputs before.now.solved.now }
    requires inputs { AreInputs edit.now.after.now edit.now.components.now table.old inputs.now }
    ensures keeps { Keeps table.old table.new }

    // Each component has its greatest preconditions in each of its mappings, also where it was taken over. One that
    // stands for an old one has the diagrams that it had.
    ensures solved { IfOk result (ArePreconditions (N.truth norm.now) edit.now.after.now
        edit.now.components.now table.new inputs.now) }
    ensures kept { IfOk result
        (KeepPreconditions edit.now table.old table.new before.now inputs.now) }
{
    let own_before = own_clauses(alloc, edit.before, edit.components_before)?;
    let own = own_clauses(alloc, edit.after, edit.components)?;
    let clauses = EditClauses {
        edit,
        own_before: own_before.as_slice(),
        own: own.as_slice(),
    };
    resolve_edit(alloc, norm, &clauses, before, inputs, table)
}
