//! The assembly of a certificate from what the engines give.

ghost use Rattle.std.specs.Prelude.{◌≡◌, ◌<◌, ◌++◌, [], IfOk, OnOk, Some, length, map, slice_get, true};
ghost use Rattle.call_components.specs.Partition.{AreComponents};
ghost use Rattle.cert_checker.specs.Norms.{norm_in};
ghost use Rattle.certificate.specs.Text.{text_of};
ghost use Rattle.cert_structure.specs.Order.{listed};
ghost use Rattle.component_clauses.specs.Numbered.{HasItsClauses};
ghost use Rattle.level_systems.specs.Found.{IsFound};
ghost use Rattle.numeric_model.specs.States.{plain_step};
ghost use Rattle.report.specs.Assembly.{AreBounded, AreFound, ArePartsOf, IsAssembled, facts_in, with_mappings};
ghost use Rattle.cert_assembly.specs.Sizing.{IsSolvedChain};
ghost use Rattle.cert_assembly.specs.ChainNotes.{chain_notes};
ghost use Rattle.report.specs.Levels.{given_up};
ghost use Rattle.report.specs.OfNorm.{certificate_norm};
ghost use Rattle.report.specs.SupportNotes.{support_notes};
ghost use Rattle.term_size.specs.AnyNorm.{any_row};
ghost use Rattle.termination_model.specs.sizes.Sizes.{AreSizes, rows_of};

use crate::levels::Mapped;
use crate::support_notes::Described;
use call_components::Components;
use cert_assembly::{Bounded, Measured, move_sizes, note_chain, print_chain, print_facts};
use cert_checker::norm_of;
use cert_structure::Parts;
use cert_writing::facts_of;
use certificate::{CertNorm, Certificate, Fact};
use component_clauses::{ComponentClauses, own_clauses};
use cti_terms::{Names, Program};
use level_dual::{Found, component_mappings};
use numeric_model::{Chain, Step};
use polyhedra::Poly;
use sequences::Sequence;
use std::alloc::{AllocError, Global};
use term_size::{AnyNorm, Norm, NormName};
use termination_model::{SizeRows, Sizes};

/// What a certificate is made of: its parts, and what its notes tell, which are the steps of its chain and what was
/// found of each component.
pub(crate) struct Assembled {
    pub(crate) parts: Parts,
    pub(crate) steps: Sequence<Step>,
    pub(crate) found: Sequence<Found>,
}

impl Drop for Assembled {
    fn drop(self) {
        let Assembled {
            parts: _,
            steps: _,
            found: _,
        } = self;
    }
}

impl Assembled {
    /// The certificate with these parts and notes.
    pub(crate) fn certificate(
        self,
        alloc: Global,
        described: &Described,
    ) -> Result<Certificate, AllocError>
        requires components { AreComponents described.now.p.now described.now.comps.now }
        requires each { length self.found ≡ length described.now.comps.now.members }
        ensures { IfOk result (λ c. c.facts
            ≡ facts_in described.now.p.now described.now.names.now described.now.comps.now self) }
    {
        let Assembled {
            parts,
            steps,
            found,
        } = self;
        let notes = notes_of(alloc, described, steps, found.as_slice())?;
        facts_of(
            alloc,
            described.p,
            described.names,
            &parts,
            notes.into_vec(),
        )
    }

    /// The text of this certificate. Its notes are printed one after the other, and are not held.
    pub(crate) fn text(self, alloc: Global, described: &Described) -> Result<Vec<u8>, AllocError>
        requires components { AreComponents described.now.p.now described.now.comps.now }
        requires each { length self.found ≡ length described.now.comps.now.members }
        ensures { IfOk result (λ text. text.items ≡ text_of
            (facts_in described.now.p.now described.now.names.now described.now.comps.now self)) }
    {
        let Assembled {
            parts,
            steps,
            found,
        } = self;
        let mut text = parts_text(alloc, described, parts)?;
        print_chain(alloc, described.p, described.names, steps, &mut text)?;
        print_supports(alloc, described, found.as_slice(), &mut text)?;
        Ok(text)
    }
}

/// The text of a certificate with these parts and no notes.
fn parts_text(alloc: Global, described: &Described, parts: Parts) -> Result<Vec<u8>, AllocError>
    ensures { IfOk result (λ text. text.items ≡ text_of
        (listed described.now.p.now described.now.names.now parts [])) }
{
    let head = facts_of(alloc, described.p, described.names, &parts, Vec::new(alloc))?;
    head.print(alloc)
}

/// Appends the text of the notes of what was found of all components.
fn print_supports(
    alloc: Global,
    described: &Described,
    found: &[Found],
    out: &mut Vec<u8>,
) -> Result<(), AllocError>
    requires components { AreComponents described.now.p.now described.now.comps.now }
    requires each { length found.now ≡ length described.now.comps.now.members }
    ensures { OnOk result (out.new.items ≡ out.old.items ++ text_of
        (support_notes described.now.p.now described.now.names.now described.now.comps.now
        (given_up found.now))) }
{
    let mut notes = Sequence::new(alloc);
    described.note_supports(alloc, found, &mut notes)?;
    print_facts(alloc, notes, out)
}

/// No parts, of a certificate that names its norm so.
pub(crate) fn no_parts(alloc: Global, norm: Option<CertNorm>) -> Parts
    ensures { result.norm ≡ norm }
{
    Parts {
        norm,
        modes: Sequence::new(alloc),
        rows: SizeRows::new(alloc),
        row_proofs: Sequence::new(alloc),
        grounds: Sequence::new(alloc),
        levels: Sequence::new(alloc),
        falls: Sequence::new(alloc),
        preconditions: Sequence::new(alloc),
        refutations: Sequence::new(alloc),
    }
}

/// Puts in the mappings, their falls and the refutations.
pub(crate) fn put_mappings(
    alloc: Global,
    p: &Program,
    comps: &Components,
    found: &[Found],
    parts: &mut Parts,
) -> Result<(), AllocError>
    requires components { AreComponents p.now comps.now }
    requires each { length found.now ≡ length comps.now.members }
    ensures { OnOk result (parts.new ≡ with_mappings p.now comps.now found.now parts.old) }
{
    let mapped = Mapped { p, comps, found };
    parts.levels = mapped.levels(alloc)?;
    parts.falls = mapped.falls(alloc)?;
    parts.refutations = mapped.refutations(alloc)?;
    Ok(())
}

/// What is found of a component's mappings: nothing, where it is not recursive.
fn find<N: Norm>(
    alloc: Global,
    own: &ComponentClauses<'_>,
    norm: &N,
    sizes: &Sizes,
) -> Result<Found, AllocError>
    requires clauses { HasItsClauses own.now }
    requires sizes { AreSizes own.now.program.now.preds sizes.now.rows }
    ensures { IfOk result (λ f. slice_get own.now.comps.now.recursive own.now.number ≡ Some true
        → IsFound (N.expression norm.now) own.now.program.now own.now.comps.now
        (rows_of sizes.now.rows) own.now.number f) }
{
    if !own.comps.recursive(own.number) {
        return Ok(Found::nothing(alloc));
    }
    component_mappings(alloc, own, norm, sizes)
}

/// What is found of the mappings of each component.
fn find_all(
    alloc: Global,
    measured: &Measured,
    sizes: &Sizes,
) -> Result<Sequence<Found>, AllocError>
    requires components { AreComponents measured.now.p.now measured.now.comps.now }
    requires sizes { AreSizes measured.now.p.now.preds sizes.now.rows }
    ensures { IfOk result (AreFound
        (any_row measured.now.norm) measured.now.p.now measured.now.comps.now sizes.now.rows) }
{
    let own = own_clauses(alloc, measured.p, measured.comps)?;
    let mut found = Sequence::new(alloc);
    for c in 0..measured.comps.count() {
        let component = ComponentClauses {
            program: measured.p,
            comps: measured.comps,
            number: c,
            clauses: own[c as usize].as_slice(),
        };
        found.push(find(alloc, &component, &measured.norm, sizes)?)?;
    }
    Ok(found)
}

/// The parts of a certificate that names its norm so, of what the model of sizes and the search for mappings give. The
/// size rows are moved into them.
fn parts_of(
    alloc: Global,
    measured: &Measured,
    named: Option<CertNorm>,
    sizes: &mut Sizes,
    found: &[Found],
) -> Result<Parts, AllocError>
    requires components { AreComponents measured.now.p.now measured.now.comps.now }
    requires found { AreFound
        (any_row measured.now.norm) measured.now.p.now measured.now.comps.now sizes.old.rows found.now }
    ensures { IfOk result (ArePartsOf
        measured.now.norm named measured.now.p.now measured.now.comps.now sizes.old found.now) }
{
    let _program = measured.p.preds();
    let mut parts = no_parts(alloc, named);
    move_sizes(alloc, sizes, &mut parts);
    put_mappings(alloc, measured.p, measured.comps, found, &mut parts)?;
    measured.put_sets(alloc, &mut parts)?;
    Ok(parts)
}

/// The parts and the notes of a certificate that names its norm so, over the size rows of a chain.
fn assembled_over(
    alloc: Global,
    measured: &Measured,
    names: &Names,
    named: Option<CertNorm>,
    chain: Chain,
) -> Result<Assembled, AllocError>
    requires components { AreComponents measured.now.p.now measured.now.comps.now }
    requires norm { measured.now.norm ≡ norm_in names.now named }
    requires chain { IsSolvedChain
        (any_row measured.now.norm) measured.now.p.now measured.now.comps.now chain }
    ensures assembled { IfOk result
        (IsAssembled measured.now.p.now names.now measured.now.comps.now) }
    ensures norm { IfOk result (λ a. a.parts.norm ≡ named) }
{
    let _program = measured.p.preds();
    let (steps, mut sizes) = chain.into_parts();
    let found = find_all(alloc, measured, &sizes)?;
    let parts = parts_of(alloc, measured, named, &mut sizes, found.as_slice())?;
    are_bounded(&parts);
    Ok(Assembled {
        parts,
        steps,
        found,
    })
}

/// Says that the numbers of parts are below 2^127.
fn are_bounded(parts: &Parts)
    ensures { AreBounded parts.now }
{
    parts.row_proofs.bounded();
    parts.levels.bounded();
    parts.falls.bounded();
    parts.refutations.bounded();
}

/// The notes of a chain, and of all components.
fn notes_of(
    alloc: Global,
    described: &Described,
    steps: Sequence<Step>,
    found: &[Found],
) -> Result<Sequence<Fact>, AllocError>
    requires components { AreComponents described.now.p.now described.now.comps.now }
    requires each { length found.now ≡ length described.now.comps.now.members }
    ensures { IfOk result (λ notes. notes
        ≡ chain_notes described.now.p.now described.now.names.now (map plain_step steps)
        ++ support_notes described.now.p.now described.now.names.now described.now.comps.now
        (given_up found.now)) }
{
    let mut notes = Sequence::new(alloc);
    note_chain(alloc, described.p, described.names, steps, &mut notes)?;
    described.note_supports(alloc, found, &mut notes)?;
    Ok(notes)
}

/// The norm as a certificate names it: not at all where it is term size.
fn certificate_norm(norm: NormName) -> Option<CertNorm>
    ensures { result ≡ certificate_norm norm }
{
    match norm {
        NormName::Term => None,
        NormName::List => Some(CertNorm::List),
    }
}

/// The parts and the notes of a program's certificate, by the norm that was asked for.
pub(crate) fn assemble(
    alloc: Global,
    p: &Program,
    names: &Names,
    comps: &Components,
    norm: NormName,
) -> Result<Assembled, AllocError>
    requires components { AreComponents p.now comps.now }
    ensures assembled { IfOk result (IsAssembled p.now names.now comps.now) }
    ensures norm { IfOk result (λ a. a.parts.norm ≡ certificate_norm norm) }
{
    let _program = p.preds();
    let named = certificate_norm(norm);
    let norm = norm_of(names, named);
    let chain = numeric_model::solve::<Poly, AnyNorm>(alloc, p, comps, &norm)?;
    assembled_over(alloc, &Measured { p, comps, norm }, names, named, chain)
}
