//! The assembly of a certificate of lists from what the engines give.

ghost use Rattle.std.specs.Prelude.{◌≡◌, ◌<◌, ◌++◌, [], IfOk, None, Some, length, map, slice_get, true};
ghost use Rattle.std.specs.List.{flat_map};
ghost use Rattle.call_components.specs.Partition.{AreComponents};
ghost use Rattle.cert_assembly.specs.ChainNotes.{chain_notes};
ghost use Rattle.cert_assembly.specs.Sizing.{IsSolvedChain};
ghost use Rattle.component_clauses.specs.Numbered.{HasItsClauses};
ghost use Rattle.lex_certificate.specs.Flat.{union_part};
ghost use Rattle.lex_certificate.specs.Order.{listed};
ghost use Rattle.lex_measures.specs.Assembly.{AreBounded, AreFound, ArePartsOf, IsAssembled, IsFlatOf, with_lists};
ghost use Rattle.lex_measures.specs.Exact.{component_notes, noted};
ghost use Rattle.lex_measures.specs.Lists.{found_of};
ghost use Rattle.lex_turns.specs.FoundLists.{AreFoundLists};
ghost use Rattle.numeric_model.specs.States.{plain_step};
ghost use Rattle.precond_fixpoint.specs.Solving.{AreLevels};
ghost use Rattle.term_size.specs.AnyNorm.{any_row, any_truth};
ghost use Rattle.term_size.specs.declared.any_norm.AnyNorm.TheVariants.{Terms};
ghost use Rattle.termination_model.specs.sizes.Sizes.{AreSizes, rows_of};

use crate::notes::{Described, push_all_noted};
use crate::printed::Printed;
use call_components::Components;
use cert_assembly::{Bounded, Measured, move_sizes, note_chain};
use cert_structure::Parts;
use component_clauses::{ComponentClauses, own_clauses};
use cti_terms::{Names, Program};
use lex_certificate::{LexCertificate, LexFact, LexParts, facts_of, flat_levels};
use lex_turns::{FoundLists, search};
use linear_rows::Multipliers;
use number_tests::{LevelPart, Refutation};
use numeric_model::{Chain, Step};
use polyhedra::Poly;
use sequences::Sequence;
use std::alloc::{AllocError, Global};
use std::mem;
use term_size::{AnyNorm, Norm, TermSize};
use termination_model::{SizeRows, Sizes};

/// What a certificate is made of: its parts, and the notes after their facts.
pub(crate) struct Assembled {
    pub(crate) parts: LexParts,
    pub(crate) notes: Sequence<LexFact>,
}

impl Drop for Assembled {
    fn drop(self) {
        let Assembled { parts: _, notes: _ } = self;
    }
}

impl Assembled {
    /// The certificate with these parts and notes.
    pub(crate) fn certificate(
        self,
        alloc: Global,
        p: &Program,
        names: &Names,
    ) -> Result<LexCertificate, AllocError>
        ensures { IfOk result (λ c. c.facts ≡ listed p.now names.now self.parts self.notes) }
    {
        let Assembled { parts, notes } = self;
        facts_of(alloc, p, names, &parts, notes.into_vec())
    }
}

/// No lists, where none are searched.
fn nothing(alloc: Global) -> FoundLists {
    FoundLists {
        lists: Sequence::new(alloc),
        refutation: None,
        blown: Sequence::new(alloc),
        large: false,
    }
}

/// What is found of a component's lists: nothing, where it is not recursive.
fn find<N: Norm>(
    alloc: Global,
    own: &ComponentClauses<'_>,
    norm: &N,
    sizes: &Sizes,
) -> Result<FoundLists, AllocError>
    requires clauses { HasItsClauses own.now }
    requires sizes { AreSizes own.now.program.now.preds sizes.now.rows }
    ensures { IfOk result (λ f. slice_get own.now.comps.now.recursive own.now.number ≡ Some true
        → AreFoundLists (N.expression norm.now) own.now.program.now own.now.comps.now
        (rows_of sizes.now.rows) own.now.number f) }
{
    if !own.comps.recursive(own.number) {
        return Ok(nothing(alloc));
    }
    search(alloc, own, norm, sizes)
}

/// What is found of the lists of each component.
fn find_all(
    alloc: Global,
    measured: &Measured,
    sizes: &Sizes,
) -> Result<Sequence<FoundLists>, AllocError>
    requires components { AreComponents measured.now.p.now measured.now.comps.now }
    requires sizes { AreSizes measured.now.p.now.preds sizes.now.rows }
    ensures { IfOk result (AreFound
        (any_row measured.now.norm) measured.now.p.now measured.now.comps.now
        sizes.now.rows) }
{
    let own = own_clauses(alloc, measured.p, measured.comps)?;
    let mut found = Sequence::new(alloc);
    for c in 0..measured.comps.count() {
        let component = ComponentClauses {
            program: measured.p,
            comps: measured.comps,
            number: c,
            clauses: own[c as usize].as_slice(),
        };
        found.push(find(alloc, &component, &measured.norm, sizes)?)?;
    }
    Ok(found)
}

/// Parts with these mappings and refutations, and no others.
fn with_levels(
    alloc: Global,
    levels: Sequence<Sequence<LevelPart>>,
    refutations: Sequence<Option<Refutation>>,
) -> Parts
    ensures norm { result.norm ≡ None }
    ensures levels { result.levels ≡ levels }
    ensures falls { result.falls ≡ [] }
    ensures refutations { result.refutations ≡ refutations }
{
    Parts {
        norm: None,
        modes: Sequence::new(alloc),
        rows: SizeRows::new(alloc),
        row_proofs: Sequence::new(alloc),
        grounds: Sequence::new(alloc),
        levels,
        falls: Sequence::new(alloc),
        preconditions: Sequence::new(alloc),
        refutations,
    }
}

/// The parts with one mapping for each list, of the size rows, the lists and the stuck sets. The size rows are moved
/// into them.
fn flat_of(
    alloc: Global,
    measured: &Measured,
    sizes: &mut Sizes,
    lists: &[Sequence<Sequence<LevelPart>>],
    stuck: Sequence<Option<Refutation>>,
) -> Result<Parts, AllocError>
    requires components { AreComponents measured.now.p.now measured.now.comps.now }
    requires levels { AreLevels measured.now.p.now measured.now.comps.now
        (map (map union_part) lists.now) }
    ensures { IfOk result (IsFlatOf
        (any_truth measured.now.norm) measured.now.p.now measured.now.comps.now
        sizes.old lists.now stuck) }
{
    let mut parts = with_levels(alloc, flat_levels(alloc, lists)?, stuck);
    move_sizes(alloc, sizes, &mut parts);
    measured.put_sets(alloc, &mut parts)?;
    Ok(parts)
}

/// The parts with lists and drops in the place of mappings and falls. They are moved out of the others.
fn with_lists(
    alloc: Global,
    parts: &mut Parts,
    lists: Sequence<Sequence<Sequence<LevelPart>>>,
    drops: Sequence<Sequence<Sequence<Sequence<Multipliers>>>>,
) -> LexParts
    ensures { result ≡ with_lists parts.old lists drops }
{
    LexParts {
        modes: mem::replace(&mut parts.modes, Sequence::new(alloc)),
        rows: mem::replace(&mut parts.rows, SizeRows::new(alloc)),
        row_proofs: mem::replace(&mut parts.row_proofs, Sequence::new(alloc)),
        grounds: mem::replace(&mut parts.grounds, Sequence::new(alloc)),
        lists,
        drops,
        preconditions: mem::replace(&mut parts.preconditions, Sequence::new(alloc)),
        stuck: mem::replace(&mut parts.refutations, Sequence::new(alloc)),
    }
}

/// The parts of a certificate, of what the model of sizes and the search for lists give. The size rows are
/// moved into them.
fn parts_of(
    alloc: Global,
    measured: &Measured,
    sizes: &mut Sizes,
    found: &[FoundLists],
) -> Result<LexParts, AllocError>
    requires components { AreComponents measured.now.p.now measured.now.comps.now }
    requires found { AreFound (any_row measured.now.norm) measured.now.p.now measured.now.comps.now
        sizes.old.rows found.now }
    ensures { IfOk result (ArePartsOf
        (any_truth measured.now.norm) measured.now.p.now measured.now.comps.now
        sizes.old found.now) }
{
    let _program = measured.p.preds();
    let printed = Printed {
        p: measured.p,
        comps: measured.comps,
        found,
    };
    let lists = printed.lists(alloc)?;
    let drops = printed.drops(alloc)?;
    let stuck = printed.stuck(alloc)?;
    let mut flat = flat_of(alloc, measured, sizes, lists.as_slice(), stuck)?;
    Ok(with_lists(alloc, &mut flat, lists, drops))
}

/// Says that the numbers of parts are below 2^127.
fn are_bounded(parts: &LexParts)
    ensures { AreBounded parts.now }
{
    parts.row_proofs.bounded();
    parts.lists.bounded();
    parts.drops.bounded();
    parts.stuck.bounded();
}

/// The notes of a chain, and of all components.
fn notes_of(
    alloc: Global,
    described: &Described,
    steps: Sequence<Step>,
    found: &[FoundLists],
) -> Result<Sequence<LexFact>, AllocError>
    requires components { AreComponents described.now.p.now described.now.comps.now }
    requires each { length found.now ≡ length described.now.comps.now.members }
    ensures { IfOk result (λ notes. notes
        ≡ flat_map noted (chain_notes described.now.p.now described.now.names.now
        (map plain_step steps))
        ++ component_notes described.now.p.now described.now.names.now described.now.comps.now
        (found_of found.now)) }
{
    let mut chain = Sequence::new(alloc);
    note_chain(alloc, described.p, described.names, steps, &mut chain)?;
    let mut notes = Sequence::new(alloc);
    push_all_noted(alloc, chain, &mut notes)?;
    described.note_components(alloc, found, &mut notes)?;
    Ok(notes)
}

/// The parts and the notes of a certificate over the size rows of a chain.
fn assembled_over(
    alloc: Global,
    measured: &Measured,
    names: &Names,
    chain: Chain,
) -> Result<Assembled, AllocError>
    requires components { AreComponents measured.now.p.now measured.now.comps.now }
    requires norm { measured.now.norm ≡ Terms (record {}) }
    requires chain { IsSolvedChain
        (any_row measured.now.norm) measured.now.p.now measured.now.comps.now chain }
    ensures { IfOk result (IsAssembled measured.now.p.now names.now measured.now.comps.now) }
{
    let (p, comps) = (measured.p, measured.comps);
    let _program = p.preds();
    let (steps, mut sizes) = chain.into_parts();
    let found = find_all(alloc, measured, &sizes)?;
    let parts = parts_of(alloc, measured, &mut sizes, found.as_slice())?;
    are_bounded(&parts);
    let described = Described { p, names, comps };
    let notes = notes_of(alloc, &described, steps, found.as_slice())?;
    Ok(Assembled { parts, notes })
}

/// The parts and the notes of a program's certificate.
pub(crate) fn assemble(
    alloc: Global,
    p: &Program,
    names: &Names,
    comps: &Components,
) -> Result<Assembled, AllocError>
    requires { AreComponents p.now comps.now }
    ensures { IfOk result (IsAssembled p.now names.now comps.now) }
{
    let _program = p.preds();
    let norm = AnyNorm::Terms(TermSize);
    let chain = numeric_model::solve::<Poly, AnyNorm>(alloc, p, comps, &norm)?;
    assembled_over(alloc, &Measured { p, comps, norm }, names, chain)
}
