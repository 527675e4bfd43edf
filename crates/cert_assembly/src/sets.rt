//! The parts of a certificate that sets of truth rows give.

ghost use Rattle.std.specs.Prelude.{◌≡◌, ◌<◌, ℕ, IfOk, Some, length, map, slice_get};
ghost use Rattle.bool_diagrams.specs.Cubes.{cubes, truth_rows};
ghost use Rattle.bool_diagrams.specs.Rows.{IsDiagram, ReadsBelow};
ghost use Rattle.bool_diagrams.specs.declared.diagram.Diagram.{Diagram as TheDiagram};
ghost use Rattle.number_tests.specs.Levels.{items_of};
ghost use Rattle.precond_fixpoint.specs.Solving.{AreMappingSets, arguments_of};
ghost use Rattle.cert_assembly.specs.Spelled.{mode_lists, spelled, spelled_each, spelled_list, spelled_lists};
ghost use Rattle.truth_rows.specs.Sets.{AreSets};

use bool_diagrams::{Cube, Diagram, Table};
use cti_terms::{PredId, Program};
use precond_fixpoint::Mode;
use sequences::Sequence;
use std::alloc::{AllocError, Global};

/// The cubes of the set of a predicate.
fn spelled(
    p: &Program,
    table: &Table,
    sets: &[Diagram],
    q: u32,
) -> Result<Sequence<Cube>, AllocError>
    requires sets { AreSets p.now.preds table.now sets.now }
    requires there { q < length p.now.preds }
    ensures { IfOk result (λ list. list ≡ spelled (slice_get p.now.preds q) table.now
        (slice_get sets.now q)) }
{
    let set = sets[q as usize];
    let cubes = table.paths(set, p.pred(PredId(q)).arity)?;
    Ok(Sequence::from_vec(cubes))
}

/// The cubes of the set of each predicate.
pub fn spelled_list(
    alloc: Global,
    p: &Program,
    table: &Table,
    sets: &[Diagram],
) -> Result<Sequence<Sequence<Cube>>, AllocError>
    requires { AreSets p.now.preds table.now sets.now }
    ensures { IfOk result (λ lists. lists ≡ spelled_list p.now.preds table.now sets.now) }
{
    let mut lists = Sequence::new(alloc);
    for q in 0..p.preds() {
        lists.push(spelled(p, table, sets, q)?)?;
    }
    Ok(lists)
}

/// The cubes of sets of rows with the given number of values.
fn spelled_each(
    alloc: Global,
    table: &Table,
    arity: u32,
    sets: &[Diagram],
) -> Result<Sequence<Sequence<Cube>>, AllocError>
    requires known { (m : ℕ) (d : TheDiagram) → slice_get sets.now m ≡ Some d
        → IsDiagram table.now d }
    requires reads { (m : ℕ) (d : TheDiagram) → slice_get sets.now m ≡ Some d
        → ReadsBelow table.now d arity }
    ensures { IfOk result (λ lists. lists ≡ map
        (λ d. cubes arity (truth_rows table.now d)) sets.now) }
{
    let mut lists = Sequence::new(alloc);
    for set in sets {
        lists.push(Sequence::from_vec(table.paths(*set, arity)?))?;
    }
    Ok(lists)
}

/// The cubes of the sets of a predicate.
fn spelled_at(
    alloc: Global,
    p: &Program,
    table: &Table,
    sets: &[Sequence<Diagram>],
    q: u32,
) -> Result<Sequence<Sequence<Cube>>, AllocError>
    requires sets { AreMappingSets p.now.preds table.now sets.now }
    requires there { q < length p.now.preds }
    ensures { IfOk result (λ lists. lists ≡ spelled_each p.now.preds table.now
        (slice_get p.now.preds q) (items_of sets.now q)) }
{
    let own = &sets[q as usize];
    spelled_each(alloc, table, p.pred(PredId(q)).arity, own.as_slice())
}

/// The cubes of the sets of each predicate, which has one for each mapping.
pub fn spelled_lists(
    alloc: Global,
    p: &Program,
    table: &Table,
    sets: &[Sequence<Diagram>],
) -> Result<Sequence<Sequence<Sequence<Cube>>>, AllocError>
    requires { AreMappingSets p.now.preds table.now sets.now }
    ensures { IfOk result (λ lists. lists ≡ spelled_lists p.now.preds table.now sets.now) }
{
    let mut lists = Sequence::new(alloc);
    for q in 0..p.preds() {
        lists.push(spelled_at(alloc, p, table, sets, q)?)?;
    }
    Ok(lists)
}

/// The arguments of modes.
pub fn arguments_of(alloc: Global, modes: &[Mode]) -> Result<Sequence<Sequence<u32>>, AllocError>
    ensures { IfOk result (λ lists. lists ≡ map arguments_of modes.now) }
{
    let mut lists = Sequence::new(alloc);
    for mode in modes {
        let arguments = Vec::from_slice(alloc, mode.args.as_slice())?;
        lists.push(Sequence::from_vec(arguments))?;
    }
    Ok(lists)
}

/// The arguments of the modes of predicates.
pub fn mode_lists(
    alloc: Global,
    modes: &[Sequence<Mode>],
) -> Result<Sequence<Sequence<Sequence<u32>>>, AllocError>
    ensures { IfOk result (λ lists. lists ≡ mode_lists modes.now) }
{
    let mut lists = Sequence::new(alloc);
    for own in modes {
        lists.push(arguments_of(alloc, own.as_slice())?)?;
    }
    Ok(lists)
}
