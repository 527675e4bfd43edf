//! What is kept of a program after an edit.

ghost use Rattle.std.specs.Prelude.{IfOk};
ghost use Rattle.bool_diagrams.specs.Rows.{Keeps};
ghost use Rattle.call_components.specs.Partition.{AreComponents};
ghost use Rattle.solved_program.specs.Kept.{IsEdit};
ghost use Rattle.kept_program.specs.Kept.{AreGroundsFrom, AreKeptNumbers, AreKeptSets, AreNumbersFrom};
ghost use Rattle.kept_program.specs.Kept.{IsKept, IsNothing, IsResolvedFrom};

use crate::kept::{Kept, KeptNumbers, KeptSets};
use bool_diagrams::Table;
use call_components::{Components, components};
use carried_mappings::resolve_mappings;
use carried_preconditions::{
    Inputs, PreconditionsBefore, SolvedPreconditions, resolve_modes, resolve_preconditions,
};
use cert_assembly::{Bounded, all_bounded};
use cti_terms::Program;
use polyhedra::Poly;
use report::levels_of;
use sequences::Sequence;
use solved_program::{Edit, SolvedSizes, resolve_grounds, resolve_sizes};
use std::alloc::{AllocError, Global};
use term_size::{AnyNorm, TermSize};
use termination_model::{SizeRows, Sizes};

/// Size rows, mappings and levels after an edit.
fn resolve_numbers(
    alloc: Global,
    edit: &Edit<'_>,
    old: &KeptNumbers,
) -> Result<KeptNumbers, AllocError>
    requires edit { IsEdit edit.now }
    requires old { AreKeptNumbers edit.now.before.now edit.now.components_before.now old.now }
    ensures numbers { IfOk result
        (AreKeptNumbers edit.now.after.now edit.now.components.now) }
    ensures kept { IfOk result (AreNumbersFrom edit.now old.now) }
{
    let norm = AnyNorm::Terms(TermSize);
    let sizes = resolve_sizes::<Poly, AnyNorm>(alloc, &norm, edit, &old.sizes)?;
    let found = resolve_mappings::<Poly, AnyNorm>(
        alloc,
        &norm,
        &*edit,
        &old.sizes,
        old.found.as_slice(),
        &sizes,
    )?;
    sizes.sizes.proofs.bounded();
    all_bounded(found.as_slice());
    let levels = levels_of(alloc, edit.after, edit.components, found.as_slice())?;
    Ok(KeptNumbers {
        sizes,
        found,
        levels,
    })
}

/// Ground rows, preconditions and modes after an edit, in the same table.
fn resolve_sets(
    alloc: Global,
    edit: &Edit<'_>,
    old: &Kept,
    numbers: &KeptNumbers,
    table: &mut Table,
) -> Result<KeptSets, AllocError>
    requires edit { IsEdit edit.now }
    requires old { IsKept edit.now.before.now edit.now.components_before.now table.old old.now }
    requires numbers { AreKeptNumbers edit.now.after.now edit.now.components.now numbers.now }
    ensures keeps { Keeps table.old table.new }
    ensures sets { IfOk result (AreKeptSets edit.now.after.now edit.now.components.now
        numbers.now.levels table.new) }
    ensures grounds { IfOk result
        (AreGroundsFrom edit.now table.old table.new old.now.sets) }
{
    let norm = AnyNorm::Terms(TermSize);
    let before = &old.sets.preconditions;
    let grounds = resolve_grounds(alloc, &norm, edit, &old.sets.grounds, table)?;
    let preconditions = resolve_preconditions(
        alloc,
        &norm,
        edit,
        &PreconditionsBefore {
            inputs: Inputs {
                grounds: &old.sets.grounds,
                levels: old.numbers.levels.as_slice(),
            },
            solved: before,
        },
        &Inputs {
            grounds: &grounds,
            levels: numbers.levels.as_slice(),
        },
        table,
    )?;
    let modes = resolve_modes(
        alloc,
        edit,
        before.allowed.as_slice(),
        old.sets.modes.as_slice(),
        table,
        preconditions.allowed.as_slice(),
    )?;
    Ok(KeptSets {
        grounds,
        preconditions,
        modes,
    })
}

/// What is kept of a program after an edit, from what was kept before it. The table keeps its earlier diagrams.
pub(crate) fn resolve(
    alloc: Global,
    edit: &Edit<'_>,
    old: &Kept,
    table: &mut Table,
) -> Result<Kept, AllocError>
    requires edit { IsEdit edit.now }
    requires old { IsKept edit.now.before.now edit.now.components_before.now table.old old.now }
    ensures keeps { Keeps table.old table.new }
    ensures kept { IfOk result (IsKept edit.now.after.now edit.now.components.now table.new) }
    ensures from { IfOk result (IsResolvedFrom edit.now table.old table.new old.now) }
{
    let numbers = resolve_numbers(alloc, edit, &old.numbers)?;
    let sets = resolve_sets(alloc, edit, old, &numbers, table)?;
    Ok(Kept { numbers, sets })
}

/// What is kept of a program without predicates.
fn nothing(alloc: Global) -> Kept
    ensures { IsNothing result }
{
    Kept {
        numbers: KeptNumbers {
            sizes: SolvedSizes {
                steps: Sequence::new(alloc),
                sizes: Sizes {
                    rows: SizeRows::new(alloc),
                    proofs: Sequence::new(alloc),
                },
            },
            found: Sequence::new(alloc),
            levels: Sequence::new(alloc),
        },
        sets: KeptSets {
            grounds: Vec::new(alloc),
            preconditions: SolvedPreconditions {
                sets: Sequence::new(alloc),
                allowed: Sequence::new(alloc),
            },
            modes: Sequence::new(alloc),
        },
    }
}

/// What is found of a program that was not there before.
pub(crate) fn solve(
    alloc: Global,
    p: &Program,
    comps: &Components,
    table: &mut Table,
) -> Result<Kept, AllocError>
    requires { AreComponents p.now comps.now }
    ensures keeps { Keeps table.old table.new }
    ensures kept { IfOk result (IsKept p.now comps.now table.new) }
{
    let empty = Program::new(alloc);
    let none = components(alloc, &empty)?;
    let kept = vec![in alloc; None; p.clauses() as usize]?;
    let edit = Edit {
        before: &empty,
        components_before: &none,
        after: p,
        components: comps,
        kept: kept.as_slice(),
    };
    resolve(alloc, &edit, &nothing(alloc), table)
}
