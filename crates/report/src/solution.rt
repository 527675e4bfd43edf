//! What the engines have found of a program, and the certificate that it makes.
//!
//! Whoever keeps a solution knows by a law what its certificate says, and makes it only where it is asked for.

ghost use Rattle.std.specs.Prelude.{◌≡◌, IfOk, OnOk, length};
ghost use Rattle.call_components.specs.Partition.{AreComponents};
ghost use Rattle.precond_fixpoint.specs.Solving.{AreMappingSets};
ghost use Rattle.report.specs.Levels.{level_list};
ghost use Rattle.report.specs.Solution.{AreFindingsBelow, HaveShapeOfFound, findings, solution_facts, solution_notes, solution_parts, with_sets};
ghost use Rattle.truth_rows.specs.Sets.{AreSets};

use crate::assembling::{no_parts, put_mappings};
use crate::levels::Mapped;
use crate::support_notes::Described;
use bool_diagrams::{Diagram, Table};
use call_components::Components;
use cert_assembly::{
    Bounded, all_bounded, mode_lists, note_components, put_sizes, spelled_list, spelled_lists,
};
use cert_structure::Parts;
use cert_writing::facts_of;
use certificate::{Certificate, Fact};
use cti_terms::{Names, Program};
use level_dual::Found;
use number_tests::LevelPart;
use numeric_model::Step;
use precond_fixpoint::Mode;
use sequences::Sequence;
use std::alloc::{AllocError, Global};
use termination_model::Sizes;

/// What the engines have found of a program by term size. It is borrowed from whoever keeps it.
#[derive(Clone, Copy)]
pub struct Solution<'a> {
    /// For each component its steps in a legal chain.
    pub steps: &'a [Sequence<Step>],
    /// The size rows that the chain ends with, and their proofs.
    pub sizes: &'a Sizes,
    /// For each component what was found of its mappings; no mapping for one that is not recursive.
    pub found: &'a [Found],
    /// For each predicate its part in each mapping of its component.
    pub levels: &'a [Sequence<LevelPart>],
    /// The table that all diagrams are in.
    pub table: &'a Table,
    /// For each predicate its ground rows.
    pub grounds: &'a [Diagram],
    /// For each predicate its precondition for each mapping of its component.
    pub sets: &'a [Sequence<Diagram>],
    /// For each predicate its modes.
    pub modes: &'a [Sequence<Mode>],
}

impl Solution<'_> {
    /// Says that all numbers are below 2^127.
    pub fn bounded(&self)
        ensures { AreFindingsBelow (findings self.now) }
    {
        self.sizes.proofs.bounded();
        all_bounded(self.found);
    }

    /// Puts in the ground rows, the preconditions and the modes.
    fn put_sets(&self, alloc: Global, p: &Program, parts: &mut Parts) -> Result<(), AllocError>
        requires grounds { AreSets p.now.preds self.now.table.now self.now.grounds.now }
        requires sets { AreMappingSets p.now.preds self.now.table.now self.now.sets.now }
        ensures { OnOk result (parts.new ≡ with_sets p.now (findings self.now) parts.old) }
    {
        parts.grounds = spelled_list(alloc, p, self.table, self.grounds)?;
        parts.preconditions = spelled_lists(alloc, p, self.table, self.sets)?;
        parts.modes = mode_lists(alloc, self.modes)?;
        Ok(())
    }

    /// The parts of the certificate. They are copies.
    fn parts(&self, alloc: Global, p: &Program, comps: &Components) -> Result<Parts, AllocError>
        requires components { AreComponents p.now comps.now }
        requires each { length self.now.found.now ≡ length comps.now.members }
        requires grounds { AreSets p.now.preds self.now.table.now self.now.grounds.now }
        requires sets { AreMappingSets p.now.preds self.now.table.now self.now.sets.now }
        ensures { IfOk result (λ parts. parts ≡ solution_parts p.now comps.now
            (findings self.now)) }
    {
        let mut parts = no_parts(alloc, None);
        put_sizes(alloc, self.sizes, &mut parts)?;
        put_mappings(alloc, p, comps, self.found, &mut parts)?;
        self.put_sets(alloc, p, &mut parts)?;
        Ok(parts)
    }

    /// The notes of the certificate: of the chain, and of all components.
    fn notes(
        &self,
        alloc: Global,
        p: &Program,
        names: &Names,
        comps: &Components,
    ) -> Result<Sequence<Fact>, AllocError>
        requires components { AreComponents p.now comps.now }
        requires each { length self.now.found.now ≡ length comps.now.members }
        ensures { IfOk result (λ notes. notes ≡ solution_notes p.now names.now comps.now
            (findings self.now)) }
    {
        let mut notes = Sequence::new(alloc);
        note_components(alloc, p, names, self.steps, &mut notes)?;
        Described { p, names, comps }.note_supports(alloc, self.found, &mut notes)?;
        Ok(notes)
    }
}

/// The parts of all predicates in the mappings that were found of their components.
pub fn levels_of(
    alloc: Global,
    p: &Program,
    comps: &Components,
    found: &[Found],
) -> Result<Sequence<Sequence<LevelPart>>, AllocError>
    requires components { AreComponents p.now comps.now }
    requires each { length found.now ≡ length comps.now.members }
    ensures levels { IfOk result (λ levels. levels ≡ level_list p.now comps.now found.now) }
    ensures shape { IfOk result (HaveShapeOfFound p.now comps.now found.now) }
{
    let _program = p.preds();
    Mapped { p, comps, found }.levels(alloc)
}

/// The certificate of a solution. What it says of the program is a law, `solutions_are_exact`.
pub fn certificate_of(
    alloc: Global,
    p: &Program,
    names: &Names,
    comps: &Components,
    solution: &Solution,
) -> Result<Certificate, AllocError>
    requires components { AreComponents p.now comps.now }
    requires each { length solution.now.found.now ≡ length comps.now.members }
    requires grounds { AreSets p.now.preds solution.now.table.now solution.now.grounds.now }
    requires sets { AreMappingSets p.now.preds solution.now.table.now solution.now.sets.now }
    ensures { IfOk result (λ c. c.facts ≡ solution_facts p.now names.now comps.now
        (findings solution.now)) }
{
    let parts = solution.parts(alloc, p, comps)?;
    let notes = solution.notes(alloc, p, names, comps)?;
    facts_of(alloc, p, names, &parts, notes.into_vec())
}
