//! The sets that the parts of a certificate spell.

ghost use Rattle.std.specs.Prelude.{◌≡◌, ◌≤◌, ◌<◌, IfOk, length};
ghost use Rattle.bool_diagrams.specs.Cubes.{covered};
ghost use Rattle.bool_diagrams.specs.Rows.{Keeps};
ghost use Rattle.cert_structure.specs.Shape.{items_of};
ghost use Rattle.cert_modes.specs.Sets.{AllSpelled, AreMappingSets, AreReady, AreSpelled, HaveRows, SpellParts, set_at, upward};

use bool_diagrams::{Cube, Diagram, Table};
use cert_structure::Parts;
use cti_terms::{MOST_ARGUMENTS, PredId, Program};
use sequences::Sequence;
use std::alloc::{AllocError, Global};
use truth_rows::{cube_rows, upward_union};

/// The sets of a certificate as diagrams of one table, by the numbers of predicates.
#[derive(Drop)]
pub(crate) struct Sets {
    /// The ground rows.
    pub(crate) grounds: Vec<Diagram>,
    /// The preconditions, one for each mapping.
    pub(crate) preconditions: Sequence<Sequence<Diagram>>,
    /// The rows that some precondition has with all upper rows.
    pub(crate) allowed: Vec<Diagram>,
    /// No rows.
    pub(crate) none: Diagram,
}

impl Sets {
    /// The sets of the parts.
    pub(crate) fn new(
        alloc: Global,
        table: &mut Table,
        p: &Program,
        parts: &Parts,
    ) -> Result<Sets, AllocError>
        requires grounds { length parts.now.grounds ≡ length p.now.preds }
        requires preconditions { length parts.now.preconditions ≡ length p.now.preds }
        ensures keeps { Keeps table.old table.new }
        ensures ready { IfOk result (λ sets. AreReady p.now table.new sets) }
        ensures spell { IfOk result (λ sets. SpellParts p.now parts.now table.new sets) }
    {
        let grounds = ground_sets(alloc, table, p, parts.grounds.as_slice())?;
        let preconditions = precondition_sets(alloc, table, p, parts.preconditions.as_slice())?;
        let allowed = allowed_sets(alloc, table, p, preconditions.as_slice())?;
        let none = table.truth(false);
        Ok(Sets {
            grounds,
            preconditions,
            allowed,
            none,
        })
    }

    /// The precondition of a predicate for the mapping of this number, from 0 on, or no rows where there is no such
    /// mapping.
    pub(crate) fn precondition(&self, pred: PredId, mapping: usize) -> Diagram
        requires { pred.0 < length self.now.preconditions }
        ensures { result ≡ set_at self.now.preconditions self.now.none mapping pred.0 }
    {
        let sets = self.preconditions.as_slice()[pred.0 as usize].as_slice();
        if mapping < sets.len() {
            sets[mapping]
        } else {
            self.none
        }
    }
}

/// The rows that the cubes of each predicate cover.
fn ground_sets(
    alloc: Global,
    table: &mut Table,
    p: &Program,
    cubes: &[Sequence<Cube>],
) -> Result<Vec<Diagram>, AllocError>
    requires each { length cubes.now ≡ length p.now.preds }
    ensures keeps { Keeps table.old table.new }
    ensures rows { IfOk result
        (λ sets. HaveRows p.now table.new (λ q. covered (items_of cubes.now q)) sets.items) }
{
    let mut sets = Vec::new(alloc);
    for q in 0..p.preds() {
        let width = p.pred(PredId(q)).arity;
        let set = cube_rows(table, cubes[q as usize].as_slice(), width)?;
        sets.push(set)?;
    }
    Ok(sets)
}

/// The rows that the cubes of each predicate and each mapping cover.
fn precondition_sets(
    alloc: Global,
    table: &mut Table,
    p: &Program,
    cubes: &[Sequence<Sequence<Cube>>],
) -> Result<Sequence<Sequence<Diagram>>, AllocError>
    requires each { length cubes.now ≡ length p.now.preds }
    ensures keeps { Keeps table.old table.new }
    ensures rows { IfOk result (λ sets. AllSpelled p.now table.new cubes.now sets) }
{
    let mut sets = Sequence::new(alloc);
    for q in 0..p.preds() {
        let width = p.pred(PredId(q)).arity;
        let own = mapping_sets(alloc, table, cubes[q as usize].as_slice(), width)?;
        sets.push(own)?;
    }
    Ok(sets)
}

/// The rows that the cubes of each mapping cover.
fn mapping_sets(
    alloc: Global,
    table: &mut Table,
    cubes: &[Sequence<Cube>],
    width: u32,
) -> Result<Sequence<Diagram>, AllocError>
    requires narrow { width ≤ MOST_ARGUMENTS }
    ensures keeps { Keeps table.old table.new }
    ensures rows { IfOk result (λ sets. AreSpelled table.new width cubes.now sets) }
{
    let mut sets = Sequence::new(alloc);
    for own in cubes {
        let set = cube_rows(table, own.as_slice(), width)?;
        sets.push(set)?;
    }
    Ok(sets)
}

/// The rows that some set of each predicate has with all upper rows.
fn allowed_sets(
    alloc: Global,
    table: &mut Table,
    p: &Program,
    sets: &[Sequence<Diagram>],
) -> Result<Vec<Diagram>, AllocError>
    requires sets { AreMappingSets p.now table.old sets.now }
    ensures keeps { Keeps table.old table.new }
    ensures rows { IfOk result
        (λ allowed. HaveRows p.now table.new
        (λ q. upward table.old (items_of sets.now q)) allowed.items) }
{
    let mut allowed = Vec::new(alloc);
    for q in 0..p.preds() {
        let width = p.pred(PredId(q)).arity;
        let union = upward_union(table, sets[q as usize].as_slice(), width)?;
        allowed.push(union)?;
    }
    Ok(allowed)
}
