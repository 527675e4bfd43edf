//! Reading the parts of a certificate of lists.

ghost use Rattle.std.specs.Prelude.{◌≡◌, ◌≢◌, ℕ, AllPairs, List, IfOk, IfSome, Some};
ghost use Rattle.std.specs.List.{list_all};
ghost use Rattle.call_components.specs.Partition.{Partition, AreComponents};
ghost use Rattle.cert_structure.specs.Structure.{AreNamed};
ghost use Rattle.cti_terms.specs.Listing.{Listing, IsProgram};
ghost use Rattle.fact_reading.specs.Filling.{Fills};
ghost use Rattle.fact_reading.specs.Walk.{Agrees};
ghost use Rattle.lex_certificate.specs.Order.{is_note};
ghost use Rattle.lex_certificate.specs.Structure.{IsStructured};
ghost use Rattle.lex_certificate.specs.Walk.{take_version, read_sections, read_parts, read_whole};
ghost use Rattle.lex_certificate.specs.declared.fact.LexFact.{LexFact as TheFact};
ghost use Rattle.lex_certificate.specs.declared.parts.LexParts.{LexParts as TheParts};

use crate::drops::Drops;
use crate::fact::LexFact;
use crate::list_certificate::LexCertificate;
use crate::lists::levels_into;
use crate::parts::LexParts;
use call_components::Components;
use cert_structure::{
    Calls, Grounds, Modes, Preconditions, PredRows, Proofs, Refutations, rows_into, told_apart,
};
use cti_terms::{Names, Program};
use fact_reading::{FactFault, Kind, Stop, each_into, first_item};
use std::alloc::{AllocError, Global};

/// The fact of the version.
#[derive(Drop)]
struct VersionFact {}

impl Kind<LexFact> for VersionFact {
    type Item = i128;

    ghost takes = { λ _ number fact. take_version number fact };

    #[tactic(auto, unfolding(crate::specs::Walk::take_version))]
    fn take(
        &self,
        _alloc: Global,
        _number: u64,
        fact: &LexFact,
    ) -> Result<Option<i128>, FactFault> {
        let LexFact::Ctilex { version } = fact else {
            return Ok(None);
        };
        if *version == 1 {
            Ok(Some(*version))
        } else {
            Err(FactFault::Shape)
        }
    }
}

/// Reads all parts into the place of others, section by section, and gives the notes after them.
#[tactic(auto, unfolding(crate::specs::Walk::read_sections))]
fn fill<'a, 'f>(
    alloc: Global,
    calls: &'a Calls<'a>,
    names: &'a Names,
    parts: &mut LexParts,
    facts: &'f [LexFact],
) -> Result<&'f [LexFact], Stop>
    ensures { Fills result parts.new
        (read_sections calls.now.p.now names.now calls.now.comps.now facts.now) }
{
    let p = calls.p;
    let (preds, clauses) = (u64::from(p.preds()), u64::from(p.clauses()));
    let sizes = each_into(alloc, &Modes { p, names }, preds, &mut parts.modes, facts)?;
    let proofs = rows_into(alloc, &PredRows { p, names }, preds, &mut parts.rows, sizes)?;
    let reader = Proofs {
        p,
        rows: &parts.rows,
    };
    let grounds = each_into(alloc, &reader, clauses, &mut parts.row_proofs, proofs)?;
    let reader = Grounds { p, names };
    let measures = each_into(alloc, &reader, preds, &mut parts.grounds, grounds)?;
    let drops = levels_into(alloc, calls, names, &mut parts.lists, measures)?;
    let reader = Drops {
        calls: *calls,
        rows: &parts.rows,
        lists: parts.lists.as_slice(),
    };
    let cubes = each_into(alloc, &reader, clauses, &mut parts.drops, drops)?;
    let reader = Preconditions {
        p,
        names,
        levels: parts.lists.as_slice(),
    };
    let stuck = each_into(alloc, &reader, preds, &mut parts.preconditions, cubes)?;
    let reader = Refutations {
        calls: *calls,
        names,
        levels: parts.lists.as_slice(),
    };
    each_into(alloc, &reader, preds, &mut parts.stuck, stuck)
}

/// The parts, and the notes after them.
#[tactic(auto, unfolding(crate::specs::Walk::read_parts))]
fn parts<'f>(
    alloc: Global,
    calls: &Calls,
    names: &Names,
    facts: &'f [LexFact],
) -> Result<(LexParts, &'f [LexFact]), Stop>
    ensures { Agrees result (read_parts calls.now.p.now names.now calls.now.comps.now facts.now) }
{
    let (_version, sections) = first_item(alloc, &VersionFact {}, 0, facts)?;
    let mut parts = LexParts::none(alloc);
    let rest = fill(alloc, calls, names, &mut parts, sections)?;
    Ok((parts, rest))
}

/// Whether a fact is a note.
fn is_note(fact: &LexFact) -> bool
    ensures { result ≡ is_note fact.now }
{
    matches!(
        fact,
        LexFact::Image { .. }
            | LexFact::Step { .. }
            | LexFact::WeakImage { .. }
            | LexFact::WeakStep { .. }
            | LexFact::Blown { .. }
    )
}

/// Whether each fact is a note.
fn are_notes(facts: &[LexFact]) -> bool
    ensures { result ≡ list_all is_note facts.now }
{
    facts.iter().all(is_note)
}

/// The parts, where all facts after them are notes.
#[tactic(auto, unfolding(crate::specs::Walk::read_whole))]
fn whole(
    alloc: Global,
    calls: &Calls,
    names: &Names,
    facts: &[LexFact],
) -> Result<Option<LexParts>, AllocError>
    ensures { IfOk result (λ found. found
        ≡ read_whole calls.now.p.now names.now calls.now.comps.now facts.now) }
{
    match parts(alloc, calls, names, facts) {
        Ok((parts, rest)) => Ok(are_notes(rest).then_some(parts)),
        Err(Stop::Wrong { .. }) => Ok(None),
        Err(Stop::Memory) => Err(AllocError),
    }
}

/// The parts of a certificate: what it claims of each predicate and clause of a program, and with which proofs. None
/// where the facts are not those of parts that the program can have.
///
/// It takes time linear in the sizes of the certificate and of the program.
pub fn parts_of(
    alloc: Global,
    p: &Program,
    names: &Names,
    comps: &Components,
    c: &LexCertificate,
) -> Result<Option<LexParts>, AllocError>
    requires named { AreNamed names.now p.now.preds }
    requires components { AreComponents p.now comps.now }

    // The certificate has the parts that are found.
    ensures found { IfOk result
        (λ found. IfSome found (λ parts. IsStructured p.now names.now comps.now parts c.now.facts)) }

    // The parts of a certificate are found, unless memory runs out; so it has no others.
    ensures only { (parts : TheParts) → IsStructured p.now names.now comps.now parts c.now.facts
        → IfOk result (λ found. found ≡ Some parts) }
{
    told_apart(p, names);
    let calls = Calls { p, comps };
    whole(alloc, &calls, names, c.facts.as_slice())
}

/// Facts are those of one parts at most, however the components are numbered.
///
/// The names are those of the program's predicates, and no two are alike.
pub fn one_reading()
    ensures { (p : Listing) (names : List (List ℕ)) (one other : Partition) (facts : List TheFact)
        (a b : TheParts)
        → IsProgram p → AreNamed names p.preds → AllPairs (λ x y. x ≢ y) names → AreComponents p one
        → AreComponents p other
        → IsStructured p names one a facts → IsStructured p names other b facts → a ≡ b }
{}

/// What parts a certificate has does not depend on how the components are numbered.
pub fn one_structure()
    ensures { (p : Listing) (names : List (List ℕ)) (one other : Partition) (parts : TheParts)
        (facts : List TheFact)
        → AreComponents p one → AreComponents p other
        → IsStructured p names one parts facts → IsStructured p names other parts facts }
{}
