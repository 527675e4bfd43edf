//! Reading the parts of a certificate.

ghost use Rattle.std.specs.Prelude.{◌≡◌, ◌≢◌, ◌<◌, ◌⊎◌, length, ℕ, List, IfErr, IfOk, MatchResult};
ghost use Rattle.std.specs.List.{prefix_len};
ghost use Rattle.call_components.specs.Partition.{Partition, AreComponents};
ghost use Rattle.certificate.specs.declared.fact.Fact.{Fact as TheFact};
ghost use Rattle.cti_terms.specs.Listing.{Listing};
ghost use Rattle.cert_structure.specs.declared.fault.PartsFault.TheVariants.{Memory, Wrong as IsWrong};
ghost use Rattle.fact_reading.specs.declared.stop.StructureReason.{StructureReason as TheReason};
ghost use Rattle.cert_structure.specs.declared.parts.Parts.{Parts as TheParts};
ghost use Rattle.fact_reading.specs.Filling.{Fills};
ghost use Rattle.cert_structure.specs.Order.{is_note, pred_text};
ghost use Rattle.cert_structure.specs.Structure.{IsStructured, AreNamed};
ghost use Rattle.cert_structure.specs.StructureFault.{IsFirstWrong, IsStructureFault};
ghost use Rattle.cert_structure.specs.Walk.{AgreesWhole, named_norm, read_head, read_sections, read_parts, read_whole};
ghost use Rattle.fact_reading.specs.Walk.{Agrees};

use crate::calls::Calls;
use crate::falls::Falls;
use crate::fault::PartsFault;
use crate::grounds::Grounds;
use crate::levels::levels_into;
use crate::modes::Modes;
use crate::parts::Parts;
use crate::preconditions::Preconditions;
use crate::refutations::Refutations;
use crate::sizes::{PredRows, Proofs, rows_into};
use call_components::Components;
use certificate::{CertNorm, Certificate, Fact};
use cti_terms::{Names, Program};
use fact_reading::{Stop, StructureReason, each_into, wrong};
use std::alloc::Global;

/// The norm of the fact in front, and the facts after it.
#[tactic(auto, unfolding(crate::specs::Walk::take_norm))]
fn norm(facts: &[Fact]) -> Result<(Option<CertNorm>, &[Fact]), Stop>
    ensures { Agrees result (named_norm facts.now) }
{
    match facts.split_first() {
        None => Err(wrong(facts, StructureReason::Missing)),
        Some((Fact::Norm { norm }, rest)) => Ok((Some(*norm), rest)),
        Some(_) => Err(wrong(facts, StructureReason::Extra)),
    }
}

/// The norm that the facts name in front, and the facts after it: version 1 names none.
#[tactic(auto, unfolding(crate::specs::Walk::read_head))]
fn head(facts: &[Fact]) -> Result<(Option<CertNorm>, &[Fact]), Stop>
    ensures { Agrees result (read_head facts.now) }
{
    match facts.split_first() {
        None => Err(wrong(facts, StructureReason::Missing)),
        Some((Fact::Cti { version }, rest)) => {
            if *version == 1 {
                Ok((None, rest))
            } else if *version == 2 {
                norm(rest)
            } else {
                Err(wrong(facts, StructureReason::Version))
            }
        }
        Some(_) => Err(wrong(facts, StructureReason::Extra)),
    }
}

/// Reads all parts but the norm into the place of others, section by section, and gives the notes after them.
#[tactic(auto, unfolding(crate::specs::Walk::read_sections))]
fn fill<'a, 'f>(
    alloc: Global,
    calls: &'a Calls<'a>,
    names: &'a Names,
    parts: &mut Parts,
    facts: &'f [Fact],
) -> Result<&'f [Fact], Stop>
    ensures { Fills result parts.new
        (read_sections calls.now.p.now names.now calls.now.comps.now parts.old.norm facts.now) }
{
    let p = calls.p;
    let (preds, clauses) = (u64::from(p.preds()), u64::from(p.clauses()));
    let sizes = each_into(alloc, &Modes { p, names }, preds, &mut parts.modes, facts)?;
    let proofs = rows_into(alloc, &PredRows { p, names }, preds, &mut parts.rows, sizes)?;
    let reader = Proofs {
        p,
        rows: &parts.rows,
    };
    let grounds = each_into(alloc, &reader, clauses, &mut parts.row_proofs, proofs)?;
    let reader = Grounds { p, names };
    let measures = each_into(alloc, &reader, preds, &mut parts.grounds, grounds)?;
    let falls = levels_into(alloc, calls, names, &mut parts.levels, measures)?;
    let reader = Falls {
        calls: *calls,
        rows: &parts.rows,
        levels: parts.levels.as_slice(),
    };
    let cubes = each_into(alloc, &reader, clauses, &mut parts.falls, falls)?;
    let reader = Preconditions {
        p,
        names,
        levels: parts.levels.as_slice(),
    };
    let refutations = each_into(alloc, &reader, preds, &mut parts.preconditions, cubes)?;
    let reader = Refutations {
        calls: *calls,
        names,
        levels: parts.levels.as_slice(),
    };
    each_into(alloc, &reader, preds, &mut parts.refutations, refutations)
}

/// The parts, and the notes after them.
#[tactic(auto, unfolding(crate::specs::Walk::read_parts))]
fn parts<'f>(
    alloc: Global,
    calls: &Calls,
    names: &Names,
    facts: &'f [Fact],
) -> Result<(Parts, &'f [Fact]), Stop>
    ensures { Agrees result (read_parts calls.now.p.now names.now calls.now.comps.now facts.now) }
{
    let (norm, sections) = head(facts)?;
    let mut parts = Parts::none(alloc, norm);
    let rest = fill(alloc, calls, names, &mut parts, sections)?;
    Ok((parts, rest))
}

/// Whether a fact is a note.
fn is_note(fact: &Fact) -> bool
    ensures { result ≡ is_note fact.now }
{
    matches!(
        fact,
        Fact::Image { .. }
            | Fact::Step { .. }
            | Fact::WeakImage { .. }
            | Fact::WeakStep { .. }
            | Fact::Blown { .. }
            | Fact::Large { .. }
    )
}

/// How many notes there are before the first fact that is not one.
fn notes(facts: &[Fact]) -> usize
    ensures { result ≡ prefix_len is_note facts.now }
{
    let mut count = 0;
    for fact in facts {
        if !is_note(fact) {
            return count;
        }
        count += 1;
    }
    count
}

/// The parts, where all facts after them are notes.
#[tactic(auto, unfolding(crate::specs::Walk::read_whole))]
fn whole(alloc: Global, calls: &Calls, names: &Names, facts: &[Fact]) -> Result<Parts, Stop>
    ensures { AgreesWhole result
        (read_whole calls.now.p.now names.now calls.now.comps.now facts.now) }
{
    let (parts, rest) = parts(alloc, calls, names, facts)?;
    let count = notes(rest);
    if count < rest.len() {
        return Err(Stop::Wrong {
            left: rest.len() - count,
            reason: StructureReason::Extra,
        });
    }
    Ok(parts)
}

/// The predicates of a program are distinguished by their texts.
pub fn told_apart(p: &Program, names: &Names)
    requires { AreNamed names.now p.now.preds }
    ensures { (a b : ℕ) → a < b → b < length p.now.preds
        → pred_text p.now names.now b ≢ pred_text p.now names.now a }
{
    let _preds = p.preds();
    let _names = names.count();
}

/// The parts of a certificate: what it claims of each predicate and clause of a program, and with which proofs.
///
/// It takes time linear in the sizes of the certificate and of the program. Fails with `Wrong`, and the line of the
/// first fault, where the certificate has no parts.
pub fn parts_of(
    alloc: Global,
    p: &Program,
    names: &Names,
    comps: &Components,
    c: &Certificate,
) -> Result<Parts, PartsFault>
    requires named { AreNamed names.now p.now.preds }
    requires components { AreComponents p.now comps.now }

    // The certificate has the parts that are found.
    ensures found { IfOk result
        (λ parts. IsStructured p.now names.now comps.now parts c.now.facts) }

    // The parts of a certificate are found, unless memory runs out; so it has no others, and none where a line is
    // wrong.
    ensures only { (parts : TheParts) → IsStructured p.now names.now comps.now parts c.now.facts
        → MatchResult result (λ found. found ≡ parts) (λ fault. fault ≡ Memory) }

    // A line that is named is that of the first fault, and the reason is what is wrong there.
    ensures wrong { IfErr result (IsFirstWrong p.now names.now comps.now c.now.facts) }

    // No other line or reason is, and none where there are parts.
    ensures fault { (line : ℕ) (why : TheReason)
        → IsStructureFault p.now names.now comps.now c.now.facts line why
        → MatchResult result (λ _. ⊥) (λ fault. (fault ≡ Memory) ⊎ (fault ≡ IsWrong line why)) }
{
    told_apart(p, names);
    let facts = c.facts.as_slice();
    let calls = Calls { p, comps };
    match whole(alloc, &calls, names, facts) {
        Ok(parts) => Ok(parts),
        Err(Stop::Wrong { left, reason }) => Err(PartsFault::Wrong {
            line: facts.len().saturating_sub(left) as u64 + 1,
            reason,
        }),
        Err(Stop::Memory) => Err(PartsFault::Memory),
    }
}

/// What parts a certificate has does not depend on how the components are numbered.
pub fn one_structure()
    ensures { (p : Listing) (names : List (List ℕ)) (one other : Partition) (parts : TheParts)
        (facts : List TheFact) → AreComponents p one → AreComponents p other
        → IsStructured p names one parts facts → IsStructured p names other parts facts }
{}

/// Which fault a certificate has does not depend on how the components are numbered.
pub fn one_structure_fault()
    ensures { (p : Listing) (names : List (List ℕ)) (one other : Partition) (facts : List TheFact)
        (line : ℕ) (why : TheReason) → AreComponents p one → AreComponents p other
        → IsStructureFault p names one facts line why
        → IsStructureFault p names other facts line why }
{}
