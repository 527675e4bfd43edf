//! The check of a certificate of lists.

ghost use Rattle.std.specs.Prelude.{◌≡◌, ◌↔◌, IfOk, IsTrue, true};
ghost use Rattle.call_components.specs.Partition.{AreComponents};
ghost use Rattle.cert_structure.specs.Structure.{AreNamed};
ghost use Rattle.cti_terms.specs.Tree.{truth};
ghost use Rattle.lex_certificate.specs.Flat.{flat};
ghost use Rattle.lex_certificate.specs.Shape.{HaveShape};
ghost use Rattle.lex_checker.specs.Bounding.{ModesAreBounded};
ghost use Rattle.lex_checker.specs.NoList.{StuckComponentsHaveNoList};
ghost use Rattle.lex_checker.specs.Shape.{CanBeTested};
ghost use Rattle.lex_checker.specs.Valid.{FlatHolds, IsValid, PartsHold};
ghost use Rattle.term_size.specs.Occurrences.{size_row};

use crate::bounding::valid_lists_bound_their_modes;
use crate::dropping::drops_hold;
use crate::excluding::stuck_components_have_no_list;
use crate::flattening::flattened;
use crate::zeros::lists_are_zero;
use call_components::{Components, components};
use cert_checker::{refutation_fault, size_fault, stated_fault};
use cert_modes::mode_fault;
use cert_structure::Parts;
use cti_terms::{Names, Program};
use lex_certificate::{LexCertificate, LexParts, one_reading, one_structure, parts_of};
use std::alloc::{AllocError, Global};
use term_size::TermSize;

/// Whether the parts hold, lists apart: their modes, size rows and stuck sets.
fn flat_holds(
    alloc: Global,
    p: &Program,
    comps: &Components,
    parts: &Parts,
) -> Result<bool, AllocError>
    requires components { AreComponents p.now comps.now }
    requires tested { CanBeTested p.now parts.now }
    ensures { IfOk result (λ yes. IsTrue yes ↔ FlatHolds truth size_row p.now comps.now parts.now) }
{
    if stated_fault(p, &parts.rows, 1).is_some() {
        return Ok(false);
    }
    if size_fault(alloc, p, &TermSize, parts, 1)?.is_some() {
        return Ok(false);
    }
    if refutation_fault(alloc, p, comps, &TermSize, parts, 1)?.is_some() {
        return Ok(false);
    }
    let fault = mode_fault(alloc, p, &TermSize, comps, parts, 1)?;
    Ok(fault.is_none())
}

/// Whether the parts of a certificate hold.
fn parts_hold(
    alloc: Global,
    p: &Program,
    comps: &Components,
    mut parts: LexParts,
) -> Result<bool, AllocError>
    requires components { AreComponents p.now comps.now }
    requires shape { HaveShape p.now comps.now parts }
    ensures { IfOk result (λ yes. IsTrue yes ↔ PartsHold truth size_row p.now comps.now parts) }
{
    // What every program keeps, its clauses among them.
    p.preds();
    if !lists_are_zero(p, comps, &parts) {
        return Ok(false);
    }
    if !drops_hold(alloc, p, comps, &TermSize, &parts)? {
        return Ok(false);
    }
    let flat = flattened(alloc, &mut parts)?;
    flat_holds(alloc, p, comps, &flat)
}

/// Whether a certificate of lists is valid: exactly where its facts are those of parts that hold.
fn is_valid(
    alloc: Global,
    p: &Program,
    names: &Names,
    c: &LexCertificate,
) -> Result<bool, AllocError>
    requires named { AreNamed names.now p.now.preds }
    ensures { IfOk result (λ yes. IsTrue yes ↔ IsValid p.now names.now c.now.facts) }
{
    // The parts do not depend on how the components are numbered.
    one_structure();
    let comps = components(alloc, p)?;
    match parts_of(alloc, p, names, &comps, c)? {
        Some(parts) => parts_hold(alloc, p, &comps, parts),
        None => Ok(false),
    }
}

/// Whether a certificate of lists of a program is valid.
///
/// The names are those of the program's predicates. Sizes are term sizes.
///
/// Source: the conditions of Mesnard and Neumerkel 2001, over lists of level mappings that drop lexicographically.
pub fn check(
    alloc: Global,
    p: &Program,
    names: &Names,
    c: &LexCertificate,
) -> Result<bool, AllocError>
    requires named { AreNamed names.now p.now.preds }
    ensures valid { IfOk result (λ yes. IsTrue yes ↔ IsValid p.now names.now c.now.facts) }

    // And then each query that meets a mode of the certificate is bounded.
    ensures bounded { IfOk result (λ yes. yes ≡ true
        → ModesAreBounded p.now names.now c.now.facts) }

    // And no list of a component with a stuck set drops, for the size rows of the certificate.
    ensures stuck { IfOk result (λ yes. yes ≡ true
        → StuckComponentsHaveNoList p.now names.now c.now.facts) }
{
    // No two names have the same text, and no two predicates the same name and arity.
    names.count();
    p.preds();
    valid_lists_bound_their_modes();
    stuck_components_have_no_list();
    is_valid(alloc, p, names, c)
}
