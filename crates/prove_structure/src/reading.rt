//! Reading the parts of a certificate of measures with numbers.

ghost use Rattle.std.specs.Prelude.{◌≡◌, ◌≢◌, ℕ, AllPairs, List, IfOk, IfSome, Some};
ghost use Rattle.std.specs.List.{list_all};
ghost use Rattle.call_components.specs.Partition.{Partition, AreComponents};
ghost use Rattle.cert_structure.specs.Structure.{AreNamed};
ghost use Rattle.cti_terms.specs.Listing.{Listing, IsProgram};
ghost use Rattle.fact_reading.specs.Filling.{Fills};
ghost use Rattle.fact_reading.specs.Walk.{Agrees};
ghost use Rattle.prove_certificate.specs.declared.fact.ProveFact.{ProveFact as TheFact};
ghost use Rattle.prove_parts.specs.Order.{is_note};
ghost use Rattle.prove_parts.specs.Structure.{IsStructured};
ghost use Rattle.prove_structure.specs.Walk.{read_claims, read_descent, read_ends, read_model};
ghost use Rattle.prove_structure.specs.Walk.{read_parts, read_sections, read_whole, take_version};
ghost use Rattle.prove_parts.specs.declared.parts.ProveParts.{ProveParts as TheParts};

use crate::bounds::Floors;
use crate::clauses::ClauseProofs;
use crate::drops::Drops;
use crate::fails::Fails;
use crate::groups::StuckSets;
use crate::kinds::Kinds;
use crate::lists::Measured;
use crate::rows::{ColumnRows, rows_into};
use bool_diagrams::Cube;
use call_components::Components;
use cert_structure::{Calls, Grounds, Modes, Preconditions, Proofs, told_apart};
use cti_terms::{Names, Program};
use fact_reading::{FactFault, Kind, Stop, each_into, first_item};
use linear_rows::Multipliers;
use number_tests::LevelPart;
use prove_certificate::{CertKind, ProveCertificate, ProveFact};
use prove_parts::{ProveParts, StuckSet};
use sequences::Sequence;
use std::alloc::{AllocError, Global};
use termination_model::SizeRows;

/// The fact of the version.
#[derive(Drop)]
struct VersionFact {}

impl Kind<ProveFact> for VersionFact {
    type Item = i128;

    ghost takes = { λ _ number fact. take_version number fact };

    #[tactic(auto, unfolding(crate::specs::Walk::take_version))]
    fn take(
        &self,
        _alloc: Global,
        _number: u64,
        fact: &ProveFact,
    ) -> Result<Option<i128>, FactFault> {
        let ProveFact::Ctiprove { version } = fact else {
            return Ok(None);
        };
        if *version == 1 {
            Ok(Some(*version))
        } else {
            Err(FactFault::Shape)
        }
    }
}

/// No parts of any predicate or clause.
fn no_parts(alloc: Global) -> ProveParts {
    ProveParts {
        modes: Sequence::new(alloc),
        kinds: Sequence::new(alloc),
        fails: Sequence::new(alloc),
        rows: SizeRows::new(alloc),
        row_proofs: Sequence::new(alloc),
        grounds: Sequence::new(alloc),
        lists: Sequence::new(alloc),
        drops: Sequence::new(alloc),
        floors: Sequence::new(alloc),
        preconditions: Sequence::new(alloc),
        stuck: Sequence::new(alloc),
    }
}

/// Reads the modes, the kinds and which predicates fail, and gives the facts after them.
#[tactic(auto, unfolding(crate::specs::Walk::read_claims))]
fn claims_into<'f>(
    alloc: Global,
    calls: &Calls,
    names: &Names,
    modes: &mut Sequence<Sequence<Sequence<u32>>>,
    kinds: &mut Sequence<Sequence<CertKind>>,
    fails: &mut Sequence<bool>,
    facts: &'f [ProveFact],
) -> Result<&'f [ProveFact], Stop>
    ensures { Fills result (modes.new, kinds.new, fails.new)
        (read_claims calls.now.p.now names.now facts.now) }
{
    let p = calls.p;
    let preds = u64::from(p.preds());
    let rest = each_into(alloc, &Modes { p, names }, preds, modes, facts)?;
    let rest = each_into(alloc, &Kinds { p, names }, preds, kinds, rest)?;
    each_into(alloc, &Fails { p, names }, preds, fails, rest)
}

/// Reads the size rows, their proofs and the ground rows, and gives the facts after them.
#[tactic(auto, unfolding(crate::specs::Walk::read_model))]
fn model_into<'f>(
    alloc: Global,
    of: &Measured,
    rows: &mut SizeRows,
    proofs: &mut Sequence<Sequence<Multipliers>>,
    grounds: &mut Sequence<Sequence<Cube>>,
    facts: &'f [ProveFact],
) -> Result<&'f [ProveFact], Stop>
    ensures { Fills result (rows.new, proofs.new, grounds.new)
        (read_model of.now.calls.p.now of.now.names.now of.now.kinds.now facts.now) }
{
    let (p, names) = (of.calls.p, of.names);
    let (preds, clauses) = (u64::from(p.preds()), u64::from(p.clauses()));
    let reader = ColumnRows {
        p,
        names,
        kinds: of.kinds,
    };
    let rest = rows_into(alloc, &reader, preds, rows, facts)?;
    let rest = each_into(alloc, &Proofs { p, rows }, clauses, proofs, rest)?;
    each_into(alloc, &Grounds { p, names }, preds, grounds, rest)
}

/// Reads the lists of measures, and the proofs that they drop and are bounded, and gives the facts after them.
#[tactic(auto, unfolding(crate::specs::Walk::read_descent))]
fn descent_into<'f>(
    alloc: Global,
    of: &Measured,
    rows: &SizeRows,
    lists: &mut Sequence<Sequence<Sequence<LevelPart>>>,
    drops: &mut Sequence<Sequence<Sequence<Sequence<Multipliers>>>>,
    floors: &mut Sequence<Sequence<Sequence<Multipliers>>>,
    facts: &'f [ProveFact],
) -> Result<&'f [ProveFact], Stop>
    ensures { Fills result (lists.new, drops.new, floors.new)
        (read_descent of.now.calls.p.now of.now.names.now of.now.calls.comps.now of.now.kinds.now
        rows.now facts.now) }
{
    let calls = of.calls;
    let clauses = u64::from(calls.p.clauses());
    let rest = of.levels_into(alloc, lists, facts)?;
    let reader = ClauseProofs {
        calls,
        rows,
        lists: lists.as_slice(),
        reader: Drops {},
    };
    let rest = each_into(alloc, &reader, clauses, drops, rest)?;
    let reader = ClauseProofs {
        calls,
        rows,
        lists: lists.as_slice(),
        reader: Floors {},
    };
    each_into(alloc, &reader, clauses, floors, rest)
}

/// Reads the preconditions and the stuck sets, and gives the facts after them.
#[tactic(auto, unfolding(crate::specs::Walk::read_ends))]
fn ends_into<'f>(
    alloc: Global,
    of: &Measured,
    lists: &[Sequence<Sequence<LevelPart>>],
    cubes: &mut Sequence<Sequence<Sequence<Cube>>>,
    stuck: &mut Sequence<Option<StuckSet>>,
    facts: &'f [ProveFact],
) -> Result<&'f [ProveFact], Stop>
    ensures { Fills result (cubes.new, stuck.new)
        (read_ends of.now.calls.p.now of.now.names.now of.now.calls.comps.now lists.now facts.now) }
{
    let calls = of.calls;
    let preds = u64::from(calls.p.preds());
    let reader = Preconditions {
        p: calls.p,
        names: of.names,
        levels: lists,
    };
    let rest = each_into(alloc, &reader, preds, cubes, facts)?;
    let reader = StuckSets {
        calls,
        names: of.names,
        lists,
    };
    each_into(alloc, &reader, preds, stuck, rest)
}

/// Reads all parts into the place of others, section by section, and gives the notes after them.
#[tactic(auto, unfolding(crate::specs::Walk::read_sections))]
fn fill<'f>(
    alloc: Global,
    calls: &Calls,
    names: &Names,
    parts: &mut ProveParts,
    facts: &'f [ProveFact],
) -> Result<&'f [ProveFact], Stop>
    ensures { Fills result parts.new
        (read_sections calls.now.p.now names.now calls.now.comps.now facts.now) }
{
    let rest = claims_into(
        alloc,
        calls,
        names,
        &mut parts.modes,
        &mut parts.kinds,
        &mut parts.fails,
        facts,
    )?;
    let of = Measured {
        calls: *calls,
        names,
        kinds: parts.kinds.as_slice(),
    };
    let rest = model_into(
        alloc,
        &of,
        &mut parts.rows,
        &mut parts.row_proofs,
        &mut parts.grounds,
        rest,
    )?;
    let rest = descent_into(
        alloc,
        &of,
        &parts.rows,
        &mut parts.lists,
        &mut parts.drops,
        &mut parts.floors,
        rest,
    )?;
    ends_into(
        alloc,
        &of,
        parts.lists.as_slice(),
        &mut parts.preconditions,
        &mut parts.stuck,
        rest,
    )
}

/// The parts, and the notes after them.
#[tactic(auto, unfolding(crate::specs::Walk::read_parts))]
fn parts<'f>(
    alloc: Global,
    calls: &Calls,
    names: &Names,
    facts: &'f [ProveFact],
) -> Result<(ProveParts, &'f [ProveFact]), Stop>
    ensures { Agrees result (read_parts calls.now.p.now names.now calls.now.comps.now facts.now) }
{
    let (_version, sections) = first_item(alloc, &VersionFact {}, 0, facts)?;
    let mut parts = no_parts(alloc);
    let rest = fill(alloc, calls, names, &mut parts, sections)?;
    Ok((parts, rest))
}

/// Whether a fact is a note.
fn is_note(fact: &ProveFact) -> bool
    ensures { result ≡ is_note fact.now }
{
    matches!(
        fact,
        ProveFact::Image { .. }
            | ProveFact::Step { .. }
            | ProveFact::WeakImage { .. }
            | ProveFact::WeakStep { .. }
            | ProveFact::Blown { .. }
    )
}

/// Whether each fact is a note.
fn are_notes(facts: &[ProveFact]) -> bool
    ensures { result ≡ list_all is_note facts.now }
{
    facts.iter().all(is_note)
}

/// The parts, where all facts after them are notes.
#[tactic(auto, unfolding(crate::specs::Walk::read_whole))]
fn whole(
    alloc: Global,
    calls: &Calls,
    names: &Names,
    facts: &[ProveFact],
) -> Result<Option<ProveParts>, AllocError>
    ensures { IfOk result (λ found. found
        ≡ read_whole calls.now.p.now names.now calls.now.comps.now facts.now) }
{
    match parts(alloc, calls, names, facts) {
        Ok((parts, rest)) => Ok(are_notes(rest).then_some(parts)),
        Err(Stop::Wrong { .. }) => Ok(None),
        Err(Stop::Memory) => Err(AllocError),
    }
}

/// The parts of a certificate: what it claims of each predicate and clause of a program, and with which proofs. None
/// where the facts are not those of parts that the program can have.
///
/// It takes time linear in the sizes of the certificate and of the program, but for a logarithm of the number of groups
/// of each stuck set.
pub fn parts_of(
    alloc: Global,
    p: &Program,
    names: &Names,
    comps: &Components,
    c: &ProveCertificate,
) -> Result<Option<ProveParts>, AllocError>
    requires named { AreNamed names.now p.now.preds }
    requires components { AreComponents p.now comps.now }

    // The certificate has the parts that are found.
    ensures found { IfOk result
        (λ found. IfSome found (λ parts. IsStructured p.now names.now comps.now parts c.now.facts)) }

    // The parts of a certificate are found, unless memory runs out; so it has no others.
    ensures only { (parts : TheParts) → IsStructured p.now names.now comps.now parts c.now.facts
        → IfOk result (λ found. found ≡ Some parts) }
{
    told_apart(p, names);
    let calls = Calls { p, comps };
    whole(alloc, &calls, names, c.facts.as_slice())
}

/// Facts are those of one parts at most, however the components are numbered.
///
/// The names are those of the program's predicates, and no two are alike.
pub fn one_reading()
    ensures { (p : Listing) (names : List (List ℕ)) (one other : Partition) (facts : List TheFact)
        (a b : TheParts)
        → IsProgram p → AreNamed names p.preds → AllPairs (λ x y. x ≢ y) names → AreComponents p one
        → AreComponents p other
        → IsStructured p names one a facts → IsStructured p names other b facts → a ≡ b }
{}

/// What parts a certificate has does not depend on how the components are numbered.
pub fn one_structure()
    ensures { (p : Listing) (names : List (List ℕ)) (one other : Partition) (parts : TheParts)
        (facts : List TheFact)
        → AreComponents p one → AreComponents p other
        → IsStructured p names one parts facts → IsStructured p names other parts facts }
{}
