//! The parts of predicates in level mappings.

ghost use Rattle.std.specs.Prelude.{◌≡◌, length, [], ◌++◌, ◌∷◌};
ghost use Rattle.fact_reading.specs.Filling.{Fills};
ghost use Rattle.cert_structure.specs.Shape.{items_of};
ghost use Rattle.cert_structure.specs.Walk.{AgreesKept, named, level_read, take_level, read_level, read_levels};
ghost use Rattle.fact_reading.specs.Walk.{Agrees};

use crate::calls::Calls;
use crate::items::count_of;
use crate::named::{Named, is_number};
use crate::numbers::level;
use certificate::Fact;
use cti_terms::Names;
use fact_reading::{FactFault, Kind, Next, Stop, each, many};
use number_tests::LevelPart;
use sequences::Sequence;
use std::alloc::Global;

/// The facts of a predicate's levels.
#[derive(Drop)]
struct LevelFact<'a> {
    pred: Named<'a>,
}

impl Kind<Fact> for LevelFact<'_> {
    type Item = LevelPart;

    ghost takes = { λ r number fact. take_level (named r.pred) number fact };

    #[tactic(auto, unfolding(crate::specs::Walk::take_level))]
    fn take(
        &self,
        alloc: Global,
        number: u64,
        fact: &Fact,
    ) -> Result<Option<LevelPart>, FactFault> {
        let Fact::Measure {
            pred,
            mapping,
            coeffs,
            offset,
        } = fact
        else {
            return Ok(None);
        };
        if !self.pred.is(pred) || !is_number(u64::from(*mapping), number) {
            return Ok(None);
        }
        Ok(Some(level(alloc, self.pred.arity, coeffs.as_slice(), *offset)?))
    }
}

/// The levels of a predicate, given those of the predicates before it.
#[tactic(auto, unfolding(crate::specs::Walk::read_level))]
fn pred_levels<'f>(
    alloc: Global,
    calls: &Calls,
    names: &Names,
    earlier: &[Sequence<LevelPart>],
    pred: u64,
    facts: &'f [Fact],
) -> Result<(Sequence<LevelPart>, &'f [Fact]), Stop>
    ensures { Agrees result (read_level calls.now.p.now names.now calls.now.comps.now earlier.now pred facts.now) }
{
    let kind = LevelFact {
        pred: Named::new(calls.p, names, pred),
    };
    if !calls.recursive(pred) {
        return each(alloc, &Next { kind }, 1, facts);
    }
    let first = calls.first(pred);
    if first == pred {
        many(alloc, &kind, facts)
    } else {
        each(alloc, &Next { kind }, count_of(earlier, first), facts)
    }
}

/// The levels of each predicate.
fn levels<'f>(
    alloc: Global,
    calls: &Calls,
    names: &Names,
    facts: &'f [Fact],
) -> Result<(Sequence<Sequence<LevelPart>>, &'f [Fact]), Stop>
    ensures { Agrees result (read_levels calls.now.p.now names.now calls.now.comps.now [] 0
        (length calls.now.p.now.preds) facts.now) }
{
    let mut levels = Sequence::new(alloc);
    let mut rest = facts;
    for pred in 0..u64::from(calls.p.preds()) {
        let (items, after) = pred_levels(alloc, calls, names, levels.as_slice(), pred, rest)?;
        levels.push(items)?;
        rest = after;
    }
    Ok((levels, rest))
}

/// Reads the levels of each predicate into the place of others, and gives the facts after them.
pub(crate) fn levels_into<'f>(
    alloc: Global,
    calls: &Calls,
    names: &Names,
    place: &mut Sequence<Sequence<LevelPart>>,
    facts: &'f [Fact],
) -> Result<&'f [Fact], Stop>
    ensures { Fills result place.new (read_levels calls.now.p.now names.now calls.now.comps.now [] 0
        (length calls.now.p.now.preds) facts.now) }
{
    let (read, rest) = levels(alloc, calls, names, facts)?;
    *place = read;
    Ok(rest)
}
