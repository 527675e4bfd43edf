//! Lists in a fact.

ghost use Rattle.std.specs.Prelude.{◌≡◌, ◌++◌, ◌<◌, ℕ, List, length, codes, flat_map, IfOk, OnOk};
ghost use Rattle.std.specs.List.{AllByRecursion};
ghost use Rattle.certificate.specs.Text.{list_text};
ghost use Rattle.certificate.specs.Parse.{Agrees, AgreesMore, read_list, read_until, with_all, next_item};
ghost use Rattle.certificate.specs.Shortening.{list_shortens};

use crate::field::Field;
use crate::line_fault::LineFault;
use crate::numbers::after;
use sequences::Sequence;
use std::alloc::{AllocError, Global};

impl<T: Field> Field for Sequence<T> {
    ghost shown = { list_text T.shown };

    ghost reads = { read_list T.reads };

    ghost fits = { AllByRecursion T.fits };

    ghost shortens = { list_shortens T.reads T.shortens };

    fn print(&self, out: &mut Vec<u8>) -> Result<(), AllocError> {
        let Some((first, others)) = self.as_slice().split_first() else {
            return out.extend_from_slice(b"[]");
        };
        out.push(b'[')?;
        first.print(out)?;
        print_others(others, out)?;
        out.push(b']')?;
        Ok(())
    }

    #[tactic(auto, unfolding(crate::specs::Parse::read_list))]
    fn read(alloc: Global, text: &[u8]) -> Result<(Sequence<T>, &[u8]), LineFault> {
        let text = after(text, b"[")?;
        if let [b']', rest @ ..] = text {
            return Ok((Sequence::new(alloc), rest));
        }
        let (item, text) = T::read(alloc, text)?;
        let mut items = Sequence::new(alloc);
        items.push(item)?;
        let text = read_more(alloc, text, &mut items)?;
        Ok((items, text))
    }
}

/// Appends the items, each with a comma before it.
fn print_others<T: Field>(items: &[T], out: &mut Vec<u8>) -> Result<(), AllocError>
    ensures { OnOk result (out.new.items ≡ out.old.items ++ flat_map
        (λ x. codes "," ++ T.shown x) items.now) }
{
    for item in items {
        out.push(b',')?;
        item.print(out)?;
    }
    Ok(())
}

/// The other items of a list up to its bracket, put after the first.
fn read_more<'a, T: Field>(
    alloc: Global,
    text: &'a [u8],
    items: &mut Sequence<T>,
) -> Result<&'a [u8], LineFault>
    ensures value { AgreesMore items.new result
        (with_all items.old (read_until 93 (next_item T.reads) text.now)) }
    ensures fits { AllByRecursion T.fits items.old
        → IfOk result (λ rest. AllByRecursion T.fits items.new) }
{
    let mut rest = text;
    loop {
        let Some((first, after_first)) = rest.split_first() else {
            return Err(LineFault::NotAFact);
        };
        if *first == b']' {
            return Ok(after_first);
        }
        let (item, after_item) = T::read(alloc, after(rest, b",")?)?;
        items.push(item)?;
        rest = after_item;
    }
}
