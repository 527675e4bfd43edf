//! Facts at the front of a text.

ghost use Rattle.std.specs.Prelude.{◌≡◌, IfOk};
ghost use Rattle.std.specs.List.{list_all};
ghost use Rattle.certificate.specs.Range.{InRange, IsIndex};
ghost use Rattle.certificate.specs.Parse.{Agrees, AgreesText, HasParts, read_next, read_last, read_mark, read_cti_fact, read_norm_fact, read_terminates_fact, read_size_fact, read_by_fact, read_grounds_fact, read_measure_fact, read_falls_fact, read_pre_fact, read_refuted_fact, read_point_fact, read_at_fact, read_image_fact, read_step_fact, read_blown_fact, read_large_fact, read_weak_image_fact, read_weak_step_fact, read_other, read_any, read_fact, has_amounts, is_amount};

use crate::fact::Fact;
use crate::field::Field;
use crate::line_fault::LineFault;
use crate::numbers::after;
use sequences::Sequence;
use std::alloc::Global;

/// A part of a fact and the comma after it.
fn next<T: Field>(alloc: Global, text: &[u8]) -> Result<(T, &[u8]), LineFault>
    ensures value { Agrees result (read_next T.reads text.now) }
    ensures fits { IfOk result (λ p. T.fits p.0) }
{
    let (part, text) = T::read(alloc, text)?;
    Ok((part, after(text, b",")?))
}

/// The last part of a fact and what ends the line.
fn last<T: Field>(alloc: Global, text: &[u8]) -> Result<(T, &[u8]), LineFault>
    ensures value { Agrees result (read_last T.reads text.now) }
    ensures fits { IfOk result (λ p. T.fits p.0) }
{
    let (part, text) = T::read(alloc, text)?;
    Ok((part, after(text, b").\n")?))
}

/// A `cti` fact from after its opening parenthesis, and the text after it.
#[tactic(auto, unfolding(crate::specs::Parse::read_cti_fact))]
fn cti(alloc: Global, text: &[u8]) -> Result<(Fact, &[u8]), LineFault>
    ensures value { Agrees result (read_cti_fact text.now) }
    ensures fits { IfOk result (λ p. HasParts p.0) }
{
    let (version, text) = last(alloc, text)?;
    Ok((Fact::Cti { version }, text))
}

/// A `norm` fact from after its opening parenthesis, and the text after it.
#[tactic(auto, unfolding(crate::specs::Parse::read_norm_fact))]
fn norm(alloc: Global, text: &[u8]) -> Result<(Fact, &[u8]), LineFault>
    ensures value { Agrees result (read_norm_fact text.now) }
    ensures fits { IfOk result (λ p. HasParts p.0) }
{
    let (norm, text) = last(alloc, text)?;
    Ok((Fact::Norm { norm }, text))
}

/// A `terminates` fact from after its opening parenthesis, and the text after it.
#[tactic(auto, unfolding(crate::specs::Parse::read_terminates_fact))]
fn terminates(alloc: Global, text: &[u8]) -> Result<(Fact, &[u8]), LineFault>
    ensures value { Agrees result (read_terminates_fact text.now) }
    ensures fits { IfOk result (λ p. HasParts p.0) }
{
    let (pred, text) = next(alloc, text)?;
    let (modes, text) = last(alloc, text)?;
    Ok((Fact::Terminates { pred, modes }, text))
}

/// A `size` fact from after its opening parenthesis, and the text after it.
#[tactic(auto, unfolding(crate::specs::Parse::read_size_fact))]
fn size(alloc: Global, text: &[u8]) -> Result<(Fact, &[u8]), LineFault>
    ensures value { Agrees result (read_size_fact text.now) }
    ensures fits { IfOk result (λ p. HasParts p.0) }
{
    let (pred, text) = next(alloc, text)?;
    let (index, text) = next(alloc, text)?;
    let (row, text) = last(alloc, text)?;
    Ok((Fact::Size { pred, index, row }, text))
}

/// A `by` fact from after its opening parenthesis, and the text after it.
#[tactic(auto, unfolding(crate::specs::Parse::read_by_fact))]
fn by(alloc: Global, text: &[u8]) -> Result<(Fact, &[u8]), LineFault>
    ensures value { Agrees result (read_by_fact text.now) }
    ensures fits { IfOk result (λ p. HasParts p.0) }
{
    let (clause, text) = next(alloc, text)?;
    let (index, text) = next(alloc, text)?;
    let (scale, text) = next(alloc, text)?;
    let (multipliers, text) = last(alloc, text)?;
    Ok((
        Fact::By {
            clause,
            index,
            scale,
            multipliers,
        },
        text,
    ))
}

/// A `grounds` fact from after its opening parenthesis, and the text after it.
#[tactic(auto, unfolding(crate::specs::Parse::read_grounds_fact))]
fn grounds(alloc: Global, text: &[u8]) -> Result<(Fact, &[u8]), LineFault>
    ensures value { Agrees result (read_grounds_fact text.now) }
    ensures fits { IfOk result (λ p. HasParts p.0) }
{
    let (pred, text) = next(alloc, text)?;
    let (index, text) = next(alloc, text)?;
    let (cube, text) = last(alloc, text)?;
    Ok((Fact::Grounds { pred, index, cube }, text))
}

/// A `measure` fact from after its opening parenthesis, and the text after it.
#[tactic(auto, unfolding(crate::specs::Parse::read_measure_fact))]
fn measure(alloc: Global, text: &[u8]) -> Result<(Fact, &[u8]), LineFault>
    ensures value { Agrees result (read_measure_fact text.now) }
    ensures fits { IfOk result (λ p. HasParts p.0) }
{
    let (pred, text) = next(alloc, text)?;
    let (mapping, text) = next(alloc, text)?;
    let (coeffs, text) = next(alloc, text)?;
    let (offset, text) = last(alloc, text)?;
    Ok((
        Fact::Measure {
            pred,
            mapping,
            coeffs,
            offset,
        },
        text,
    ))
}

/// A `falls` fact from after its opening parenthesis, and the text after it.
#[tactic(auto, unfolding(crate::specs::Parse::read_falls_fact))]
fn falls(alloc: Global, text: &[u8]) -> Result<(Fact, &[u8]), LineFault>
    ensures value { Agrees result (read_falls_fact text.now) }
    ensures fits { IfOk result (λ p. HasParts p.0) }
{
    let (clause, text) = next(alloc, text)?;
    let (call, text) = next(alloc, text)?;
    let (mapping, text) = next(alloc, text)?;
    let (scale, text) = next(alloc, text)?;
    let (multipliers, text) = last(alloc, text)?;
    Ok((
        Fact::Falls {
            clause,
            call,
            mapping,
            scale,
            multipliers,
        },
        text,
    ))
}

/// A `pre` fact from after its opening parenthesis, and the text after it.
#[tactic(auto, unfolding(crate::specs::Parse::read_pre_fact))]
fn pre(alloc: Global, text: &[u8]) -> Result<(Fact, &[u8]), LineFault>
    ensures value { Agrees result (read_pre_fact text.now) }
    ensures fits { IfOk result (λ p. HasParts p.0) }
{
    let (pred, text) = next(alloc, text)?;
    let (mapping, text) = next(alloc, text)?;
    let (index, text) = next(alloc, text)?;
    let (cube, text) = last(alloc, text)?;
    Ok((
        Fact::Pre {
            pred,
            mapping,
            index,
            cube,
        },
        text,
    ))
}

/// A `none` fact from after its opening parenthesis, and the text after it.
#[tactic(auto, unfolding(crate::specs::Parse::read_refuted_fact))]
fn refuted(alloc: Global, text: &[u8]) -> Result<(Fact, &[u8]), LineFault>
    ensures value { Agrees result (read_refuted_fact text.now) }
    ensures fits { IfOk result (λ p. HasParts p.0) }
{
    let (pred, text) = next(alloc, text)?;
    let (points, text) = last(alloc, text)?;
    Ok((Fact::Refuted { pred, points }, text))
}

/// A `point` fact from after its opening parenthesis, and the text after it.
#[tactic(auto, unfolding(crate::specs::Parse::read_point_fact))]
fn point(alloc: Global, text: &[u8]) -> Result<(Fact, &[u8]), LineFault>
    ensures value { Agrees result (read_point_fact text.now) }
    ensures fits { IfOk result (λ p. HasParts p.0) }
{
    let (clause, text) = next(alloc, text)?;
    let (call, text) = next(alloc, text)?;
    let (t, text) = next(alloc, text)?;
    let (w, text) = last(alloc, text)?;
    Ok((Fact::Point { clause, call, t, w }, text))
}

/// An `at` fact from after its opening parenthesis, and the text after it.
#[tactic(auto, unfolding(crate::specs::Parse::read_at_fact))]
fn at(alloc: Global, text: &[u8]) -> Result<(Fact, &[u8]), LineFault>
    ensures value { Agrees result (read_at_fact text.now) }
    ensures fits { IfOk result (λ p. HasParts p.0) }
{
    let (clause, text) = next(alloc, text)?;
    let (call, text) = next(alloc, text)?;
    let (t, text) = next(alloc, text)?;
    let (w, text) = last(alloc, text)?;
    Ok((Fact::At { clause, call, t, w }, text))
}

/// An `image` fact from after its opening parenthesis, and the text after it.
#[tactic(auto, unfolding(crate::specs::Parse::read_image_fact))]
fn image(alloc: Global, text: &[u8]) -> Result<(Fact, &[u8]), LineFault>
    ensures value { Agrees result (read_image_fact text.now) }
    ensures fits { IfOk result (λ p. HasParts p.0) }
{
    let (step, text) = next(alloc, text)?;
    let (clause, text) = next(alloc, text)?;
    let (pred, text) = next(alloc, text)?;
    let (rows, text) = last(alloc, text)?;
    Ok((
        Fact::Image {
            step,
            clause,
            pred,
            rows,
        },
        text,
    ))
}

/// A `step` fact from after its opening parenthesis, and the text after it.
#[tactic(auto, unfolding(crate::specs::Parse::read_step_fact))]
fn step(alloc: Global, text: &[u8]) -> Result<(Fact, &[u8]), LineFault>
    ensures value { Agrees result (read_step_fact text.now) }
    ensures fits { IfOk result (λ p. HasParts p.0) }
{
    let (step, text) = next(alloc, text)?;
    let (pred, text) = next(alloc, text)?;
    let (how, text) = next(alloc, text)?;
    let (rows, text) = last(alloc, text)?;
    Ok((
        Fact::Step {
            step,
            pred,
            how,
            rows,
        },
        text,
    ))
}

/// A `blown` fact from after its opening parenthesis, and the text after it.
#[tactic(auto, unfolding(crate::specs::Parse::read_blown_fact))]
fn blown(alloc: Global, text: &[u8]) -> Result<(Fact, &[u8]), LineFault>
    ensures value { Agrees result (read_blown_fact text.now) }
    ensures fits { IfOk result (λ p. HasParts p.0) }
{
    let (pred, text) = next(alloc, text)?;
    let (support, text) = last(alloc, text)?;
    Ok((Fact::Blown { pred, support }, text))
}

/// A `large` fact from after its opening parenthesis, and the text after it.
#[tactic(auto, unfolding(crate::specs::Parse::read_large_fact))]
fn large(alloc: Global, text: &[u8]) -> Result<(Fact, &[u8]), LineFault>
    ensures value { Agrees result (read_large_fact text.now) }
    ensures fits { IfOk result (λ p. HasParts p.0) }
{
    let (pred, text) = next(alloc, text)?;
    let (positions, text) = last(alloc, text)?;
    Ok((Fact::Large { pred, positions }, text))
}

/// The step of a mark, which has one parenthesis more.
fn mark(alloc: Global, text: &[u8]) -> Result<(u64, &[u8]), LineFault>
    ensures value { Agrees result (read_mark text.now) }
    ensures fits { IfOk result (λ p. IsIndex p.0) }
{
    let (step, text) = u64::read(alloc, text)?;
    Ok((step, after(text, b")).\n")?))
}

/// A `weak(image(..))` fact from after its opening parentheses, and the text after it.
#[tactic(auto, unfolding(crate::specs::Parse::read_weak_image_fact))]
fn weak_image(alloc: Global, text: &[u8]) -> Result<(Fact, &[u8]), LineFault>
    ensures value { Agrees result (read_weak_image_fact text.now) }
    ensures fits { IfOk result (λ p. HasParts p.0) }
{
    let (step, text) = mark(alloc, text)?;
    Ok((Fact::WeakImage { step }, text))
}

/// A `weak(step(..))` fact from after its opening parentheses, and the text after it.
#[tactic(auto, unfolding(crate::specs::Parse::read_weak_step_fact))]
fn weak_step(alloc: Global, text: &[u8]) -> Result<(Fact, &[u8]), LineFault>
    ensures value { Agrees result (read_weak_step_fact text.now) }
    ensures fits { IfOk result (λ p. HasParts p.0) }
{
    let (step, text) = mark(alloc, text)?;
    Ok((Fact::WeakStep { step }, text))
}

/// A fact whose amounts may be below 0.
#[tactic(auto, unfolding(crate::specs::Parse::read_any))]
fn any(alloc: Global, text: &[u8]) -> Result<(Fact, &[u8]), LineFault>
    ensures value { Agrees result (read_any text.now) }
    ensures fits { IfOk result (λ p. HasParts p.0) }
{
    if let Some(rest) = text.strip_prefix(b"cti(") {
        return cti(alloc, rest);
    }
    if let Some(rest) = text.strip_prefix(b"norm(") {
        return norm(alloc, rest);
    }
    if let Some(rest) = text.strip_prefix(b"terminates(") {
        return terminates(alloc, rest);
    }
    if let Some(rest) = text.strip_prefix(b"size(") {
        return size(alloc, rest);
    }
    if let Some(rest) = text.strip_prefix(b"by(") {
        return by(alloc, rest);
    }
    if let Some(rest) = text.strip_prefix(b"grounds(") {
        return grounds(alloc, rest);
    }
    if let Some(rest) = text.strip_prefix(b"measure(") {
        return measure(alloc, rest);
    }
    if let Some(rest) = text.strip_prefix(b"falls(") {
        return falls(alloc, rest);
    }
    if let Some(rest) = text.strip_prefix(b"pre(") {
        return pre(alloc, rest);
    }
    other(alloc, text)
}

/// A refutation's fact or a note.
#[tactic(auto, unfolding(crate::specs::Parse::read_other))]
fn other(alloc: Global, text: &[u8]) -> Result<(Fact, &[u8]), LineFault>
    ensures value { Agrees result (read_other text.now) }
    ensures fits { IfOk result (λ p. HasParts p.0) }
{
    if let Some(rest) = text.strip_prefix(b"none(") {
        return refuted(alloc, rest);
    }
    if let Some(rest) = text.strip_prefix(b"point(") {
        return point(alloc, rest);
    }
    if let Some(rest) = text.strip_prefix(b"at(") {
        return at(alloc, rest);
    }
    if let Some(rest) = text.strip_prefix(b"image(") {
        return image(alloc, rest);
    }
    if let Some(rest) = text.strip_prefix(b"step(") {
        return step(alloc, rest);
    }
    if let Some(rest) = text.strip_prefix(b"weak(image(") {
        return weak_image(alloc, rest);
    }
    if let Some(rest) = text.strip_prefix(b"weak(step(") {
        return weak_step(alloc, rest);
    }
    if let Some(rest) = text.strip_prefix(b"blown(") {
        return blown(alloc, rest);
    }
    if let Some(rest) = text.strip_prefix(b"large(") {
        return large(alloc, rest);
    }
    Err(LineFault::NotAFact)
}

/// The fact in range at the front of a text. Its line may be spelled in another way than the fact is printed.
#[tactic(auto, unfolding(crate::specs::Parse::read_fact), using(crate::proofs::RangeLemmas::in_range))]
pub fn read_fact(alloc: Global, text: &[u8]) -> Result<(Fact, &[u8]), LineFault>
    ensures value { Agrees result (read_fact text.now) }
    ensures fits { IfOk result (λ p. InRange p.0) }
{
    let (fact, text) = any(alloc, text)?;
    if !has_amounts(&fact) {
        return Err(LineFault::NotAFact);
    }
    Ok((fact, text))
}

/// Whether the amounts of a fact are not below 0.
fn has_amounts(fact: &Fact) -> bool
    ensures { result ≡ has_amounts fact.now }
{
    match fact {
        Fact::Cti { version } => *version >= 0,
        Fact::By {
            scale,
            multipliers,
            ..
        }
        | Fact::Falls {
            scale,
            multipliers,
            ..
        } => *scale >= 0 && are_amounts(multipliers),
        Fact::Measure { coeffs, offset, .. } => are_amounts(coeffs) && *offset >= 0,
        Fact::Point { t, w, .. } | Fact::At { t, w, .. } => *t >= 0 && are_amounts(w),
        _ => true,
    }
}

/// Whether no number is below 0.
fn are_amounts(numbers: &Sequence<i128>) -> bool
    ensures { result ≡ list_all is_amount numbers.now }
{
    numbers.as_slice().iter().all(|number| *number >= 0)
}
