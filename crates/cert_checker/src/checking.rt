//! The check of a certificate.

ghost use Rattle.std.specs.Prelude.{◌≡◌, ◌≢◌, ◌↔◌, ℕ, List, IfOk, IfSome, None, Some};
ghost use Rattle.std.specs.List.{AllPairs};
ghost use Rattle.call_components.specs.Partition.{AreComponents};
ghost use Rattle.certificate.specs.declared.fact.Fact.{Fact as TheFact};
ghost use Rattle.cert_structure.specs.Order.{listed};
ghost use Rattle.cert_structure.specs.Shape.{HaveShape};
ghost use Rattle.cert_structure.specs.Structure.{AreNamed, AreNotes};
ghost use Rattle.fact_reading.specs.declared.stop.StructureReason.{StructureReason as TheStructureReason};
ghost use Rattle.cert_checker.specs.Bounding.{ModesAreBounded};
ghost use Rattle.cert_checker.specs.Fault.{FactFails, IsFault, IsValueFault};
ghost use Rattle.cert_checker.specs.Finding.{Finds};
ghost use Rattle.cert_checker.specs.Sections.{AreLines, number_facts};
ghost use Rattle.cert_checker.specs.Refutes.{RefutedHaveNoMapping};
ghost use Rattle.cert_checker.specs.StructureFaults.{HasStructureFault, structure_fault};
ghost use Rattle.cert_checker.specs.Valid.{IsValid, NumbersHold, PartsHold};
ghost use Rattle.cert_checker.specs.declared.reason.Reason.{Reason as TheReason};
ghost use Rattle.cert_checker.specs.declared.verdict.Verdict.TheVariants.{No, Yes};
ghost use Rattle.term_size.specs.AnyNorm.{any_row, any_truth};

use crate::bounding::valid_certificates_bound_their_modes;
use crate::fall_faults::fall_fault;
use crate::fault::Fault;
use crate::lines::Lines;
use crate::measure_faults::measure_fault;
use crate::norms::norm_of;
use crate::refutation_faults::refutation_fault;
use crate::size_faults::size_fault;
use crate::stated_faults::stated_fault;
use crate::verdict::Verdict;
use call_components::{Components, components};
use cert_modes::mode_fault;
use cert_structure::{Parts, PartsFault, one_structure, one_structure_fault, parts_of};
use certificate::Certificate;
use cti_terms::{Names, Program};
use std::alloc::{AllocError, Global};
use term_size::AnyNorm;

/// The first fault of the numbers of a certificate, in the order of its lines: that of the first fact that fails.
fn number_fault(
    alloc: Global,
    p: &Program,
    comps: &Components,
    norm: &AnyNorm,
    parts: &Parts,
    lines: Lines,
) -> Result<Option<Fault>, AllocError>
    requires components { AreComponents p.now comps.now }
    requires shape { HaveShape p.now comps.now parts.now }
    requires lines { AreLines parts.now lines }
    ensures hold { IfOk result
        (λ fault. (fault ≡ None) ↔ NumbersHold (any_row norm.now) p.now comps.now parts.now) }
    ensures first { IfOk result (λ fault. (names : List (List ℕ)) → AreNamed names p.now.preds
        → AllPairs (λ a b. a ≢ b) names
        → Finds (FactFails p.now names (any_truth norm.now) (any_row norm.now) comps.now parts.now)
        lines.sizes (number_facts p.now names parts.now) fault) }
{
    // What every program keeps, its clauses among them.
    p.preds();
    if let Some(fault) = stated_fault(p, &parts.rows, lines.sizes) {
        return Ok(Some(fault));
    }
    if let Some(fault) = size_fault(alloc, p, norm, parts, lines.row_proofs)? {
        return Ok(Some(fault));
    }
    if let Some(fault) = measure_fault(p, comps, parts, lines.measures) {
        return Ok(Some(fault));
    }
    if let Some(fault) = fall_fault(alloc, p, comps, norm, parts, lines.falls)? {
        return Ok(Some(fault));
    }
    let fault = refutation_fault(alloc, p, comps, norm, parts, lines.refutations)?;
    Ok(fault)
}

/// The first fault of the parts of a certificate, in the order of its lines: that of the modes, or else that of the
/// numbers.
fn value_fault(
    alloc: Global,
    p: &Program,
    comps: &Components,
    norm: &AnyNorm,
    parts: &Parts,
) -> Result<Option<Fault>, AllocError>
    requires components { AreComponents p.now comps.now }
    requires shape { HaveShape p.now comps.now parts.now }
    ensures hold { IfOk result (λ fault. (fault ≡ None)
        ↔ PartsHold (any_truth norm.now) (any_row norm.now) p.now comps.now parts.now) }
    ensures first { IfOk result (λ fault. (names : List (List ℕ)) (notes : List TheFact)
        → AreNamed names p.now.preds → AllPairs (λ a b. a ≢ b) names → AreNotes notes
        → Finds (FactFails p.now names (any_truth norm.now) (any_row norm.now) comps.now parts.now)
        1 (listed p.now names parts.now notes) fault) }
{
    // What every program keeps.
    p.preds();
    let lines = Lines::of(parts);
    let modes = mode_fault(alloc, p, norm, comps, parts, lines.modes)?;
    match modes {
        Some(fault) => Ok(Some(Fault::of_modes(fault))),
        None => number_fault(alloc, p, comps, norm, parts, lines),
    }
}

/// The first fault of a certificate.
fn first_fault(
    alloc: Global,
    p: &Program,
    names: &Names,
    c: &Certificate,
) -> Result<Option<Fault>, AllocError>
    requires named { AreNamed names.now p.now.preds }
    ensures valid { IfOk result (λ fault. (fault ≡ None) ↔ IsValid p.now names.now c.now.facts) }
    ensures excluded { IfOk result (λ fault. fault ≡ None
        → RefutedHaveNoMapping p.now names.now c.now.facts) }
    ensures structure { IfOk result (λ fault. (line : ℕ) (why : TheStructureReason)
        → HasStructureFault p.now names.now c.now.facts line why
        → fault ≡ Some (structure_fault line why)) }
    ensures fault { IfOk result
        (λ fault. IfSome fault (λ f. IsFault p.now names.now c.now.facts f.line f.reason)) }
    ensures values { IfOk result (λ fault. (line : ℕ) (why : TheReason)
        → IsValueFault p.now names.now c.now.facts line why
        → fault ≡ Some (record { line = line; reason = why })) }
{
    // What every program and all names keep, and that the facts can be counted.
    p.preds();
    names.count();
    c.facts.len();
    let comps = components(alloc, p)?;
    // The parts and the fault do not depend on how the components are numbered.
    one_structure();
    one_structure_fault();
    match parts_of(alloc, p, names, &comps, c) {
        Ok(parts) => {
            let norm = norm_of(names, parts.norm);
            value_fault(alloc, p, &comps, &norm, &parts)
        }
        Err(PartsFault::Wrong { line, reason }) => Ok(Some(Fault::of_structure(line, reason))),
        Err(PartsFault::Memory) => Err(AllocError),
    }
}

/// Whether a certificate of a program is valid.
///
/// The names are those of the program's predicates. Where the certificate is not valid, the verdict has the line of the
/// first fault and its reason. Sizes are by the norm that the certificate names.
///
/// Source: the conditions of Mesnard and Neumerkel 2001, with a proof for each size row, mapping and refutation.
pub fn check(
    alloc: Global,
    p: &Program,
    names: &Names,
    c: &Certificate,
) -> Result<Verdict, AllocError>
    requires named { AreNamed names.now p.now.preds }

    // The answer is Yes exactly where the certificate is valid.
    ensures yes { IfOk result (λ v. (v ≡ Yes) ↔ IsValid p.now names.now c.now.facts) }

    // And then each query that meets a mode of the certificate is bounded.
    ensures bounded { IfOk result (λ v. v ≡ Yes → ModesAreBounded p.now names.now c.now.facts) }

    // And no mapping of a component with a refutation decreases, for the size rows of the certificate.
    ensures excluded { IfOk result (λ v. v ≡ Yes
        → RefutedHaveNoMapping p.now names.now c.now.facts) }

    // The answer is No with a line and a reason exactly where they are those of the first fault: of the structure, or
    // else of the first fact that claims what does not hold.
    ensures fault { IfOk result (λ v. (line : ℕ) (why : TheReason)
        → (v ≡ No line why) ↔ IsFault p.now names.now c.now.facts line why) }
{
    // No two names have the same text, and no two predicates the same name and arity.
    names.count();
    p.preds();
    valid_certificates_bound_their_modes();
    match first_fault(alloc, p, names, c)? {
        None => Ok(Verdict::Yes),
        Some(Fault { line, reason }) => Ok(Verdict::No { line, reason }),
    }
}
