//! Writers of the facts of items that are numbered from 0, for any type of facts.

ghost use Rattle.std.specs.Prelude.{◌≡◌, ◌<◌, ◌+◌, ◌^◌, ◌++◌, ℕ, List, OnOk, length};
ghost use Rattle.fact_reading.specs.Numbered.{facts_from};

use sequences::Sequence;
use std::alloc::{AllocError, Global};

/// A writer of the facts of items.
pub trait Writer<F> {
    /// What is written.
    type Item;

    /// The facts of the item of a number.
    ghost facts: { Self → ℕ → Self.Item → List F };

    /// Puts the facts of the item of a number after others.
    fn write(
        &self,
        alloc: Global,
        number: u64,
        item: &Self::Item,
        out: &mut Sequence<F>,
    ) -> Result<(), AllocError>
        requires { number + 1 < 2 ^ 64 }
        ensures { OnOk result (out.new ≡ out.old ++ facts self.now number item.now) };
}

/// Puts the facts of items after others.
pub fn write_each<F, W: Writer<F>>(
    alloc: Global,
    writer: &W,
    items: &[W::Item],
    out: &mut Sequence<F>,
) -> Result<(), AllocError>
    ensures { OnOk result (out.new ≡ out.old ++ facts_from 0 (W.facts writer.now) items.now) }
{
    for (number, item) in items.iter().enumerate() {
        writer.write(alloc, number as u64, item, out)?;
    }
    Ok(())
}

/// Puts facts after others.
pub fn append<F: Drop>(facts: Vec<F>, out: &mut Sequence<F>) -> Result<(), AllocError>
    ensures { OnOk result (out.new ≡ out.old ++ facts.items) }
{
    for fact in facts {
        out.push(fact)?;
    }
    Ok(())
}
