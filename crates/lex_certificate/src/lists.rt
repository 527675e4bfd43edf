//! The parts of predicates in lists of mappings.

ghost use Rattle.std.specs.Prelude.{◌≡◌, length, []};
ghost use Rattle.cert_structure.specs.Shape.{items_of};
ghost use Rattle.cert_structure.specs.Walk.{named};
ghost use Rattle.fact_reading.specs.Filling.{Fills};
ghost use Rattle.fact_reading.specs.Walk.{Agrees, read_each, read_next};
ghost use Rattle.lex_certificate.specs.Walk.{take_level, read_lists, read_like, read_one, read_own, read_levels};

use crate::fact::LexFact;
use cert_structure::{Calls, Named, count_of, is_number, level};
use cti_terms::Names;
use fact_reading::{FactFault, Kind, Next, Reader, Stop, each, many};
use number_tests::LevelPart;
use sequences::Sequence;
use std::alloc::Global;

/// The facts of a predicate's measures in a list.
#[derive(Drop)]
struct LevelFact<'a> {
    pred: Named<'a>,
    list: u64,
}

impl Kind<LexFact> for LevelFact<'_> {
    type Item = LevelPart;

    ghost takes = { λ r number fact. take_level (named r.pred) r.list number fact };

    #[tactic(auto, unfolding(crate::specs::Walk::take_level))]
    fn take(
        &self,
        alloc: Global,
        number: u64,
        fact: &LexFact,
    ) -> Result<Option<LevelPart>, FactFault> {
        let LexFact::Level {
            pred,
            list,
            index,
            coeffs,
            offset,
        } = fact
        else {
            return Ok(None);
        };
        if !self.pred.is(pred)
            || !is_number(u64::from(*list), self.list)
            || !is_number(*index, number)
        {
            return Ok(None);
        }
        Ok(Some(level(alloc, self.pred.arity, coeffs.as_slice(), *offset)?))
    }
}

/// The lists of a predicate.
pub(crate) fn lists_at(lists: &[Sequence<Sequence<LevelPart>>], pred: u64) -> &[Sequence<LevelPart>]
    ensures { result.now ≡ items_of lists.now pred }
{
    match lists.get(pred as usize) {
        Some(own) => own.as_slice(),
        None => &[],
    }
}

/// The lists from the first one on, as long as there is a first measure.
fn open_lists<'f>(
    alloc: Global,
    pred: Named,
    facts: &'f [LexFact],
) -> Result<(Sequence<Sequence<LevelPart>>, &'f [LexFact]), Stop>
    ensures { Agrees result (read_lists (named pred.entry) 0 (length facts.now) facts.now) }
{
    let mut lists = Sequence::new(alloc);
    let mut rest = facts;
    for list in 0..facts.len() as u64 {
        let (levels, after) = many(alloc, &LevelFact { pred, list }, rest)?;
        if levels.is_empty() {
            return Ok((lists, after));
        }
        lists.push(levels)?;
        rest = after;
    }
    Ok((lists, rest))
}

/// The measures of a predicate in lists that have as many as those of another.
#[derive(Drop)]
struct ListsLike<'a> {
    pred: Named<'a>,
    like: &'a [Sequence<LevelPart>],
}

impl Reader<LexFact> for ListsLike<'_> {
    type Item = Sequence<LevelPart>;

    ghost reads = { λ r list facts.
        read_each (read_next (take_level (named r.pred) list)) 0 (length (items_of r.like.now list)) facts };

    fn read<'f>(
        &self,
        alloc: Global,
        number: u64,
        facts: &'f [LexFact],
    ) -> Result<(Sequence<LevelPart>, &'f [LexFact]), Stop> {
        let kind = LevelFact {
            pred: self.pred,
            list: number,
        };
        each(alloc, &Next { kind }, count_of(self.like, number), facts)
    }
}

/// One list of one measure.
#[tactic(auto, unfolding(crate::specs::Walk::read_one))]
fn one_list<'f>(
    alloc: Global,
    pred: Named,
    facts: &'f [LexFact],
) -> Result<(Sequence<Sequence<LevelPart>>, &'f [LexFact]), Stop>
    ensures { Agrees result (read_one (named pred.entry) facts.now) }
{
    let kind = LevelFact { pred, list: 0 };
    let (levels, rest) = each(alloc, &Next { kind }, 1, facts)?;
    let mut lists = Sequence::new(alloc);
    lists.push(levels)?;
    Ok((lists, rest))
}

/// The lists of a predicate, given those of the predicates before it.
#[tactic(auto, unfolding(crate::specs::Walk::read_own, crate::specs::Walk::read_like))]
fn pred_lists<'f>(
    alloc: Global,
    calls: &Calls,
    names: &Names,
    earlier: &[Sequence<Sequence<LevelPart>>],
    number: u64,
    facts: &'f [LexFact],
) -> Result<(Sequence<Sequence<LevelPart>>, &'f [LexFact]), Stop>
    ensures { Agrees result (read_own calls.now.p.now names.now calls.now.comps.now earlier.now number facts.now) }
{
    let pred = Named::new(calls.p, names, number);
    if !calls.recursive(number) {
        return one_list(alloc, pred, facts);
    }
    let first = calls.first(number);
    if first == number {
        return open_lists(alloc, pred, facts);
    }
    let like = lists_at(earlier, first);
    each(alloc, &ListsLike { pred, like }, like.len() as u64, facts)
}

/// The lists of each predicate.
fn levels<'f>(
    alloc: Global,
    calls: &Calls,
    names: &Names,
    facts: &'f [LexFact],
) -> Result<(Sequence<Sequence<Sequence<LevelPart>>>, &'f [LexFact]), Stop>
    ensures { Agrees result
        (read_levels calls.now.p.now names.now calls.now.comps.now [] 0
        (length calls.now.p.now.preds) facts.now) }
{
    let mut lists = Sequence::new(alloc);
    let mut rest = facts;
    for pred in 0..u64::from(calls.p.preds()) {
        let (own, after) = pred_lists(alloc, calls, names, lists.as_slice(), pred, rest)?;
        lists.push(own)?;
        rest = after;
    }
    Ok((lists, rest))
}

/// Reads the lists of each predicate into the place of others, and gives the facts after them.
pub(crate) fn levels_into<'f>(
    alloc: Global,
    calls: &Calls,
    names: &Names,
    place: &mut Sequence<Sequence<Sequence<LevelPart>>>,
    facts: &'f [LexFact],
) -> Result<&'f [LexFact], Stop>
    ensures { Fills result place.new
        (read_levels calls.now.p.now names.now calls.now.comps.now [] 0
        (length calls.now.p.now.preds) facts.now) }
{
    let (read, rest) = levels(alloc, calls, names, facts)?;
    *place = read;
    Ok(rest)
}
