//! Readers of a numbered item at the front of the facts.

ghost use Rattle.std.specs.Prelude.{◌≡◌, ℕ, List};
ghost use Rattle.fact_reading.specs.Filling.{Fills};
ghost use Rattle.fact_reading.specs.Walk.{Agrees, Read, read_each};

use crate::stop::Stop;
use sequences::Sequence;
use std::alloc::Global;

/// A reader of items that are numbered from 0.
pub trait Reader<F> {
    /// What is read.
    type Item: Drop;

    /// The item of a number at the front of the facts, and the facts after it; or the first wrong fact.
    ghost reads: { Self → ℕ → List F → Read F Self.Item };

    /// The item of a number at the front of the facts, and the facts after it.
    fn read<'f>(
        &self,
        alloc: Global,
        number: u64,
        facts: &'f [F],
    ) -> Result<(Self::Item, &'f [F]), Stop>
        ensures { Agrees result (reads self.now number facts.now) };
}

/// The items of the numbers below `count`, in order.
pub fn each<'f, F, R: Reader<F>>(
    alloc: Global,
    reader: &R,
    count: u64,
    facts: &'f [F],
) -> Result<(Sequence<R::Item>, &'f [F]), Stop>
    ensures { Agrees result (read_each (R.reads reader.now) 0 count facts.now) }
{
    let mut items = Sequence::new(alloc);
    let mut rest = facts;
    for number in 0..count {
        let (item, after) = reader.read(alloc, number, rest)?;
        items.push(item)?;
        rest = after;
    }
    Ok((items, rest))
}

/// Reads the items of the numbers below `count` into the place of others, and gives the facts after them.
pub fn each_into<'f, F, R: Reader<F>>(
    alloc: Global,
    reader: &R,
    count: u64,
    items: &mut Sequence<R::Item>,
    facts: &'f [F],
) -> Result<&'f [F], Stop>
    ensures { Fills result items.new (read_each (R.reads reader.now) 0 count facts.now) }
{
    let (read, rest) = each(alloc, reader, count, facts)?;
    *items = read;
    Ok(rest)
}
