//! The parts of a fact, with commas between them, and what ends its line after the last one.

ghost use Rattle.std.specs.Prelude.{◌≡◌, IfOk};
ghost use Rattle.certificate.specs.Range.{IsIndex};
ghost use Rattle.certificate.specs.Parse.{Agrees, read_last, read_mark, read_next};
ghost use Rattle.prove_certificate.specs.Parts.{read_two, read_three, read_four, read_five, read_six};

use crate::lines::after;
use certificate::{Field, LineFault};
use std::alloc::Global;

/// A part and the comma after it.
fn next<T: Field>(alloc: Global, text: &[u8]) -> Result<(T, &[u8]), LineFault>
    ensures value { Agrees result (read_next T.reads text.now) }
    ensures fits { IfOk result (λ p. T.fits p.0) }
{
    let (part, text) = T::read(alloc, text)?;
    Ok((part, after(text, b",")?))
}

/// The last part, and what ends the line.
pub(crate) fn read_last<T: Field>(alloc: Global, text: &[u8]) -> Result<(T, &[u8]), LineFault>
    ensures value { Agrees result (read_last T.reads text.now) }
    ensures fits { IfOk result (λ p. T.fits p.0) }
{
    let (part, text) = T::read(alloc, text)?;
    Ok((part, after(text, b").\n")?))
}

/// The step of a mark, and what ends its line, which has one parenthesis more.
pub(crate) fn read_mark(alloc: Global, text: &[u8]) -> Result<(u64, &[u8]), LineFault>
    ensures value { Agrees result (read_mark text.now) }
    ensures fits { IfOk result (λ p. IsIndex p.0) }
{
    let (step, text) = u64::read(alloc, text)?;
    Ok((step, after(text, b")).\n")?))
}

/// The last two parts, and what ends the line.
#[tactic(auto, unfolding(crate::specs::Parts::read_two))]
pub(crate) fn read_two<A: Field, B: Field>(
    alloc: Global,
    text: &[u8],
) -> Result<((A, B), &[u8]), LineFault>
    ensures value { Agrees result (read_two A.reads B.reads text.now) }
    ensures fits { IfOk result (λ p. A.fits p.0.0 × B.fits p.0.1) }
{
    let (first, text) = next(alloc, text)?;
    let (second, text) = read_last(alloc, text)?;
    Ok(((first, second), text))
}

/// The last three parts, and what ends the line.
#[tactic(auto, unfolding(crate::specs::Parts::read_three))]
pub(crate) fn read_three<A: Field, B: Field, C: Field>(
    alloc: Global,
    text: &[u8],
) -> Result<((A, B, C), &[u8]), LineFault>
    ensures value { Agrees result (read_three A.reads B.reads C.reads text.now) }
    ensures fits { IfOk result (λ p. A.fits p.0.0 × B.fits p.0.1 × C.fits p.0.2) }
{
    let (first, text) = next(alloc, text)?;
    let ((second, third), text) = read_two(alloc, text)?;
    Ok(((first, second, third), text))
}

/// The last four parts, and what ends the line.
#[tactic(auto, unfolding(crate::specs::Parts::read_four))]
pub(crate) fn read_four<A: Field, B: Field, C: Field, D: Field>(
    alloc: Global,
    text: &[u8],
) -> Result<((A, B, C, D), &[u8]), LineFault>
    ensures value { Agrees result (read_four A.reads B.reads C.reads D.reads text.now) }
    ensures fits { IfOk result (λ p. A.fits p.0.0 × B.fits p.0.1 × C.fits p.0.2 × D.fits p.0.3) }
{
    let (first, text) = next(alloc, text)?;
    let ((second, third, fourth), text) = read_three(alloc, text)?;
    Ok(((first, second, third, fourth), text))
}

/// Five parts, and what ends the line.
#[tactic(auto, unfolding(crate::specs::Parts::read_five))]
pub(crate) fn read_five<A: Field, B: Field, C: Field, D: Field, E: Field>(
    alloc: Global,
    text: &[u8],
) -> Result<((A, B, C, D, E), &[u8]), LineFault>
    ensures value { Agrees result (read_five A.reads B.reads C.reads D.reads E.reads text.now) }
    ensures fits { IfOk result (λ p. A.fits p.0.0 × B.fits p.0.1 × C.fits p.0.2 × D.fits p.0.3
        × E.fits p.0.4) }
{
    let (first, text) = next(alloc, text)?;
    let ((second, third, fourth, fifth), text) = read_four(alloc, text)?;
    Ok(((first, second, third, fourth, fifth), text))
}

/// Six parts, and what ends the line.
#[tactic(auto, unfolding(crate::specs::Parts::read_six))]
pub(crate) fn read_six<A: Field, B: Field, C: Field, D: Field, E: Field, F: Field>(
    alloc: Global,
    text: &[u8],
) -> Result<((A, B, C, D, E, F), &[u8]), LineFault>
    ensures value { Agrees result
        (read_six A.reads B.reads C.reads D.reads E.reads F.reads text.now) }
    ensures fits { IfOk result (λ p. A.fits p.0.0 × B.fits p.0.1 × C.fits p.0.2 × D.fits p.0.3
        × E.fits p.0.4 × F.fits p.0.5) }
{
    let (first, text) = next(alloc, text)?;
    let ((second, third, fourth, fifth, sixth), text) = read_five(alloc, text)?;
    Ok(((first, second, third, fourth, fifth, sixth), text))
}
