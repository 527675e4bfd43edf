//! The parts of predicates in lists of mappings.

ghost use Rattle.std.specs.Prelude.{◌≡◌, length, []};
ghost use Rattle.cert_structure.specs.Shape.{items_of};
ghost use Rattle.cert_structure.specs.Walk.{named};
ghost use Rattle.fact_reading.specs.Filling.{Fills};
ghost use Rattle.fact_reading.specs.Walk.{Agrees, read_each, read_next};
ghost use Rattle.prove_structure.specs.Walk.{take_level, read_lists, read_like, read_one, read_own, read_levels};

use crate::numbers::measure;
use cert_structure::{Calls, Named, count_of, is_number};
use cti_terms::Names;
use fact_reading::{FactFault, Kind, Next, Reader, Stop, each, many};
use number_tests::LevelPart;
use prove_certificate::{CertKind, ProveFact};
use prove_parts::columns_in;
use sequences::Sequence;
use std::alloc::Global;

/// A predicate, and how many columns its arguments have.
#[derive(Clone, Copy)]
struct WidePred<'a> {
    pred: Named<'a>,
    width: u128,
}

/// The facts of a predicate's measures in a list.
#[derive(Drop)]
struct LevelFact<'a> {
    of: WidePred<'a>,
    list: u64,
}

impl Kind<ProveFact> for LevelFact<'_> {
    type Item = LevelPart;

    ghost takes = { λ r number fact. take_level (named r.of.pred) r.of.width r.list number fact };

    #[tactic(auto, unfolding(crate::specs::Walk::take_level))]
    fn take(
        &self,
        alloc: Global,
        number: u64,
        fact: &ProveFact,
    ) -> Result<Option<LevelPart>, FactFault> {
        let ProveFact::Level {
            pred,
            list,
            index,
            coeffs,
            offset,
        } = fact
        else {
            return Ok(None);
        };
        if !self.of.pred.is(pred)
            || !is_number(u64::from(*list), self.list)
            || !is_number(*index, number)
        {
            return Ok(None);
        }
        Ok(Some(measure(alloc, self.of.width, coeffs.as_slice(), *offset)?))
    }
}

/// The lists of a predicate.
pub(crate) fn lists_at(lists: &[Sequence<Sequence<LevelPart>>], pred: u64) -> &[Sequence<LevelPart>]
    ensures { result.now ≡ items_of lists.now pred }
{
    match lists.get(pred as usize) {
        Some(own) => own.as_slice(),
        None => &[],
    }
}

/// The lists from the first one on, as long as there is a first measure.
fn open_lists<'f>(
    alloc: Global,
    of: WidePred,
    facts: &'f [ProveFact],
) -> Result<(Sequence<Sequence<LevelPart>>, &'f [ProveFact]), Stop>
    ensures { Agrees result
        (read_lists (named of.entry.pred) of.entry.width 0 (length facts.now) facts.now) }
{
    let mut lists = Sequence::new(alloc);
    let mut rest = facts;
    for list in 0..facts.len() as u64 {
        let (levels, after) = many(alloc, &LevelFact { of, list }, rest)?;
        if levels.is_empty() {
            return Ok((lists, after));
        }
        lists.push(levels)?;
        rest = after;
    }
    Ok((lists, rest))
}

/// The measures of a predicate in lists that have as many as those of another.
#[derive(Drop)]
struct ListsLike<'a> {
    of: WidePred<'a>,
    like: &'a [Sequence<LevelPart>],
}

impl Reader<ProveFact> for ListsLike<'_> {
    type Item = Sequence<LevelPart>;

    ghost reads = { λ r list facts.
        read_each (read_next (take_level (named r.of.pred) r.of.width list)) 0 (length
        (items_of r.like.now list)) facts };

    fn read<'f>(
        &self,
        alloc: Global,
        number: u64,
        facts: &'f [ProveFact],
    ) -> Result<(Sequence<LevelPart>, &'f [ProveFact]), Stop> {
        let kind = LevelFact {
            of: self.of,
            list: number,
        };
        each(alloc, &Next { kind }, count_of(self.like, number), facts)
    }
}

/// One list of one measure.
#[tactic(auto, unfolding(crate::specs::Walk::read_one))]
fn one_list<'f>(
    alloc: Global,
    of: WidePred,
    facts: &'f [ProveFact],
) -> Result<(Sequence<Sequence<LevelPart>>, &'f [ProveFact]), Stop>
    ensures { Agrees result (read_one (named of.entry.pred) of.entry.width facts.now) }
{
    let kind = LevelFact { of, list: 0 };
    let (levels, rest) = each(alloc, &Next { kind }, 1, facts)?;
    let mut lists = Sequence::new(alloc);
    lists.push(levels)?;
    Ok((lists, rest))
}

/// What the lists of predicates are read by.
#[derive(Clone, Copy)]
pub(crate) struct Measured<'a> {
    pub(crate) calls: Calls<'a>,
    pub(crate) names: &'a Names,
    pub(crate) kinds: &'a [Sequence<CertKind>],
}

impl Measured<'_> {
    /// The lists of a predicate, given those of the predicates before it.
    #[tactic(auto, unfolding(crate::specs::Walk::read_own, crate::specs::Walk::read_like))]
    fn pred_lists<'f>(
        &self,
        alloc: Global,
        earlier: &[Sequence<Sequence<LevelPart>>],
        number: u64,
        facts: &'f [ProveFact],
    ) -> Result<(Sequence<Sequence<LevelPart>>, &'f [ProveFact]), Stop>
        ensures { Agrees result (read_own self.now.calls.p.now self.now.names.now
            self.now.calls.comps.now self.now.kinds.now earlier.now number facts.now) }
    {
        let of = WidePred {
            pred: Named::new(self.calls.p, self.names, number),
            width: columns_in(self.kinds, number),
        };
        if !self.calls.recursive(number) {
            return one_list(alloc, of, facts);
        }
        let first = self.calls.first(number);
        if first == number {
            return open_lists(alloc, of, facts);
        }
        let like = lists_at(earlier, first);
        each(alloc, &ListsLike { of, like }, like.len() as u64, facts)
    }

    /// The lists of each predicate.
    fn levels<'f>(
        &self,
        alloc: Global,
        facts: &'f [ProveFact],
    ) -> Result<(Sequence<Sequence<Sequence<LevelPart>>>, &'f [ProveFact]), Stop>
        ensures { Agrees result
            (read_levels self.now.calls.p.now self.now.names.now self.now.calls.comps.now
            self.now.kinds.now [] 0
            (length self.now.calls.p.now.preds) facts.now) }
    {
        let mut lists = Sequence::new(alloc);
        let mut rest = facts;
        for pred in 0..u64::from(self.calls.p.preds()) {
            let (own, after) = self.pred_lists(alloc, lists.as_slice(), pred, rest)?;
            lists.push(own)?;
            rest = after;
        }
        Ok((lists, rest))
    }

    /// Reads the lists of each predicate into the place of others, and gives the facts after them.
    pub(crate) fn levels_into<'f>(
        &self,
        alloc: Global,
        place: &mut Sequence<Sequence<Sequence<LevelPart>>>,
        facts: &'f [ProveFact],
    ) -> Result<&'f [ProveFact], Stop>
        ensures { Fills result place.new
            (read_levels self.now.calls.p.now self.now.names.now self.now.calls.comps.now
            self.now.kinds.now [] 0
            (length self.now.calls.p.now.preds) facts.now) }
    {
        let (read, rest) = self.levels(alloc, facts)?;
        *place = read;
        Ok(rest)
    }
}
