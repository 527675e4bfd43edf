//! Facts at the front of a text.

ghost use Rattle.std.specs.Prelude.{◌≡◌, IfOk};
ghost use Rattle.std.specs.List.{list_all};
ghost use Rattle.certificate.specs.Parse.{Agrees, is_amount};
ghost use Rattle.prove_certificate.specs.Range.{HasParts, InRange, amounts_of};
ghost use Rattle.prove_certificate.specs.Parse.{read_ctiprove_fact, read_terminates_fact, read_kinds_fact, read_fails_fact, read_size_fact, read_by_fact, read_grounds_fact, read_level_fact, read_drops_fact, read_floors_fact, read_pre_fact, read_refuted_fact, read_group_fact, read_point_fact, read_floor_fact, read_image_fact, read_step_fact, read_weak_image_fact, read_weak_step_fact, read_blown_fact, read_any, read_other, read_note, read_fact};

use crate::fact::ProveFact;
use crate::parts::{read_five, read_four, read_last, read_mark, read_six, read_three, read_two};
use certificate::LineFault;
use sequences::Sequence;
use std::alloc::Global;

/// A `ctiprove` fact from after its opening parenthesis, and the text after it.
#[tactic(auto, unfolding(crate::specs::Parse::read_ctiprove_fact))]
fn ctiprove(alloc: Global, text: &[u8]) -> Result<(ProveFact, &[u8]), LineFault>
    ensures value { Agrees result (read_ctiprove_fact text.now) }
    ensures fits { IfOk result (λ p. HasParts p.0) }
{
    let (version, text) = read_last(alloc, text)?;
    Ok((ProveFact::Ctiprove { version }, text))
}

/// A `terminates` fact from after its opening parenthesis, and the text after it.
#[tactic(auto, unfolding(crate::specs::Parse::read_terminates_fact))]
fn terminates(alloc: Global, text: &[u8]) -> Result<(ProveFact, &[u8]), LineFault>
    ensures value { Agrees result (read_terminates_fact text.now) }
    ensures fits { IfOk result (λ p. HasParts p.0) }
{
    let ((pred, modes), text) = read_two(alloc, text)?;
    Ok((ProveFact::Terminates { pred, modes }, text))
}

/// A `kinds` fact from after its opening parenthesis, and the text after it.
#[tactic(auto, unfolding(crate::specs::Parse::read_kinds_fact))]
fn kinds(alloc: Global, text: &[u8]) -> Result<(ProveFact, &[u8]), LineFault>
    ensures value { Agrees result (read_kinds_fact text.now) }
    ensures fits { IfOk result (λ p. HasParts p.0) }
{
    let ((pred, kinds), text) = read_two(alloc, text)?;
    Ok((ProveFact::Kinds { pred, kinds }, text))
}

/// A `fails` fact from after its opening parenthesis, and the text after it.
#[tactic(auto, unfolding(crate::specs::Parse::read_fails_fact))]
fn fails(alloc: Global, text: &[u8]) -> Result<(ProveFact, &[u8]), LineFault>
    ensures value { Agrees result (read_fails_fact text.now) }
    ensures fits { IfOk result (λ p. HasParts p.0) }
{
    let (pred, text) = read_last(alloc, text)?;
    Ok((ProveFact::Fails { pred }, text))
}

/// A `size` fact from after its opening parenthesis, and the text after it.
#[tactic(auto, unfolding(crate::specs::Parse::read_size_fact))]
fn size(alloc: Global, text: &[u8]) -> Result<(ProveFact, &[u8]), LineFault>
    ensures value { Agrees result (read_size_fact text.now) }
    ensures fits { IfOk result (λ p. HasParts p.0) }
{
    let ((pred, index, row), text) = read_three(alloc, text)?;
    Ok((ProveFact::Size { pred, index, row }, text))
}

/// A `by` fact from after its opening parenthesis, and the text after it.
#[tactic(auto, unfolding(crate::specs::Parse::read_by_fact))]
fn by(alloc: Global, text: &[u8]) -> Result<(ProveFact, &[u8]), LineFault>
    ensures value { Agrees result (read_by_fact text.now) }
    ensures fits { IfOk result (λ p. HasParts p.0) }
{
    let ((clause, index, scale, multipliers), text) = read_four(alloc, text)?;
    Ok((
        ProveFact::By {
            clause,
            index,
            scale,
            multipliers,
        },
        text,
    ))
}

/// A `grounds` fact from after its opening parenthesis, and the text after it.
#[tactic(auto, unfolding(crate::specs::Parse::read_grounds_fact))]
fn grounds(alloc: Global, text: &[u8]) -> Result<(ProveFact, &[u8]), LineFault>
    ensures value { Agrees result (read_grounds_fact text.now) }
    ensures fits { IfOk result (λ p. HasParts p.0) }
{
    let ((pred, index, cube), text) = read_three(alloc, text)?;
    Ok((ProveFact::Grounds { pred, index, cube }, text))
}

/// A `level` fact from after its opening parenthesis, and the text after it.
#[tactic(auto, unfolding(crate::specs::Parse::read_level_fact))]
fn level(alloc: Global, text: &[u8]) -> Result<(ProveFact, &[u8]), LineFault>
    ensures value { Agrees result (read_level_fact text.now) }
    ensures fits { IfOk result (λ p. HasParts p.0) }
{
    let ((pred, list, index, coeffs, offset), text) = read_five(alloc, text)?;
    Ok((
        ProveFact::Level {
            pred,
            list,
            index,
            coeffs,
            offset,
        },
        text,
    ))
}

/// A `drops` fact from after its opening parenthesis, and the text after it.
#[tactic(auto, unfolding(crate::specs::Parse::read_drops_fact))]
fn drops(alloc: Global, text: &[u8]) -> Result<(ProveFact, &[u8]), LineFault>
    ensures value { Agrees result (read_drops_fact text.now) }
    ensures fits { IfOk result (λ p. HasParts p.0) }
{
    let ((clause, call, list, index, scale, multipliers), text) = read_six(alloc, text)?;
    Ok((
        ProveFact::Drops {
            clause,
            call,
            list,
            index,
            scale,
            multipliers,
        },
        text,
    ))
}

/// A `floors` fact from after its opening parenthesis, and the text after it.
#[tactic(auto, unfolding(crate::specs::Parse::read_floors_fact))]
fn floors(alloc: Global, text: &[u8]) -> Result<(ProveFact, &[u8]), LineFault>
    ensures value { Agrees result (read_floors_fact text.now) }
    ensures fits { IfOk result (λ p. HasParts p.0) }
{
    let ((clause, call, list, scale, multipliers), text) = read_five(alloc, text)?;
    Ok((
        ProveFact::Floors {
            clause,
            call,
            list,
            scale,
            multipliers,
        },
        text,
    ))
}

/// A `pre` fact from after its opening parenthesis, and the text after it.
#[tactic(auto, unfolding(crate::specs::Parse::read_pre_fact))]
fn pre(alloc: Global, text: &[u8]) -> Result<(ProveFact, &[u8]), LineFault>
    ensures value { Agrees result (read_pre_fact text.now) }
    ensures fits { IfOk result (λ p. HasParts p.0) }
{
    let ((pred, list, index, cube), text) = read_four(alloc, text)?;
    Ok((
        ProveFact::Pre {
            pred,
            list,
            index,
            cube,
        },
        text,
    ))
}

/// A `none` fact from after its opening parenthesis, and the text after it.
#[tactic(auto, unfolding(crate::specs::Parse::read_refuted_fact))]
fn refuted(alloc: Global, text: &[u8]) -> Result<(ProveFact, &[u8]), LineFault>
    ensures value { Agrees result (read_refuted_fact text.now) }
    ensures fits { IfOk result (λ p. HasParts p.0) }
{
    let ((pred, groups), text) = read_two(alloc, text)?;
    Ok((ProveFact::Refuted { pred, groups }, text))
}

/// A `group` fact from after its opening parenthesis, and the text after it.
#[tactic(auto, unfolding(crate::specs::Parse::read_group_fact))]
fn group(alloc: Global, text: &[u8]) -> Result<(ProveFact, &[u8]), LineFault>
    ensures value { Agrees result (read_group_fact text.now) }
    ensures fits { IfOk result (λ p. HasParts p.0) }
{
    let ((clause, call), text) = read_two(alloc, text)?;
    Ok((ProveFact::Group { clause, call }, text))
}

/// A `point` fact from after its opening parenthesis, and the text after it.
#[tactic(auto, unfolding(crate::specs::Parse::read_point_fact))]
fn point(alloc: Global, text: &[u8]) -> Result<(ProveFact, &[u8]), LineFault>
    ensures value { Agrees result (read_point_fact text.now) }
    ensures fits { IfOk result (λ p. HasParts p.0) }
{
    let ((clause, call, t, w), text) = read_four(alloc, text)?;
    Ok((ProveFact::Point { clause, call, t, w }, text))
}

/// A `floor` fact from after its opening parenthesis, and the text after it.
#[tactic(auto, unfolding(crate::specs::Parse::read_floor_fact))]
fn floor(alloc: Global, text: &[u8]) -> Result<(ProveFact, &[u8]), LineFault>
    ensures value { Agrees result (read_floor_fact text.now) }
    ensures fits { IfOk result (λ p. HasParts p.0) }
{
    let ((clause, call, t, w), text) = read_four(alloc, text)?;
    Ok((ProveFact::Floor { clause, call, t, w }, text))
}

/// An `image` fact from after its opening parenthesis, and the text after it.
#[tactic(auto, unfolding(crate::specs::Parse::read_image_fact))]
fn image(alloc: Global, text: &[u8]) -> Result<(ProveFact, &[u8]), LineFault>
    ensures value { Agrees result (read_image_fact text.now) }
    ensures fits { IfOk result (λ p. HasParts p.0) }
{
    let ((step, clause, pred, rows), text) = read_four(alloc, text)?;
    Ok((
        ProveFact::Image {
            step,
            clause,
            pred,
            rows,
        },
        text,
    ))
}

/// A `step` fact from after its opening parenthesis, and the text after it.
#[tactic(auto, unfolding(crate::specs::Parse::read_step_fact))]
fn step(alloc: Global, text: &[u8]) -> Result<(ProveFact, &[u8]), LineFault>
    ensures value { Agrees result (read_step_fact text.now) }
    ensures fits { IfOk result (λ p. HasParts p.0) }
{
    let ((step, pred, how, rows), text) = read_four(alloc, text)?;
    Ok((
        ProveFact::Step {
            step,
            pred,
            how,
            rows,
        },
        text,
    ))
}

/// A `weak(image(..))` fact from after its opening parentheses, and the text after it.
#[tactic(auto, unfolding(crate::specs::Parse::read_weak_image_fact))]
fn weak_image(alloc: Global, text: &[u8]) -> Result<(ProveFact, &[u8]), LineFault>
    ensures value { Agrees result (read_weak_image_fact text.now) }
    ensures fits { IfOk result (λ p. HasParts p.0) }
{
    let (step, text) = read_mark(alloc, text)?;
    Ok((ProveFact::WeakImage { step }, text))
}

/// A `weak(step(..))` fact from after its opening parentheses, and the text after it.
#[tactic(auto, unfolding(crate::specs::Parse::read_weak_step_fact))]
fn weak_step(alloc: Global, text: &[u8]) -> Result<(ProveFact, &[u8]), LineFault>
    ensures value { Agrees result (read_weak_step_fact text.now) }
    ensures fits { IfOk result (λ p. HasParts p.0) }
{
    let (step, text) = read_mark(alloc, text)?;
    Ok((ProveFact::WeakStep { step }, text))
}

/// A `blown` fact from after its opening parenthesis, and the text after it.
#[tactic(auto, unfolding(crate::specs::Parse::read_blown_fact))]
fn blown(alloc: Global, text: &[u8]) -> Result<(ProveFact, &[u8]), LineFault>
    ensures value { Agrees result (read_blown_fact text.now) }
    ensures fits { IfOk result (λ p. HasParts p.0) }
{
    let ((pred, support), text) = read_two(alloc, text)?;
    Ok((ProveFact::Blown { pred, support }, text))
}

/// A fact whose amounts may be below 0.
#[tactic(auto, unfolding(crate::specs::Parse::read_any))]
fn any(alloc: Global, text: &[u8]) -> Result<(ProveFact, &[u8]), LineFault>
    ensures value { Agrees result (read_any text.now) }
    ensures fits { IfOk result (λ p. HasParts p.0) }
{
    if let Some(rest) = text.strip_prefix(b"ctiprove(") {
        return ctiprove(alloc, rest);
    }
    if let Some(rest) = text.strip_prefix(b"terminates(") {
        return terminates(alloc, rest);
    }
    if let Some(rest) = text.strip_prefix(b"kinds(") {
        return kinds(alloc, rest);
    }
    if let Some(rest) = text.strip_prefix(b"fails(") {
        return fails(alloc, rest);
    }
    if let Some(rest) = text.strip_prefix(b"size(") {
        return size(alloc, rest);
    }
    if let Some(rest) = text.strip_prefix(b"by(") {
        return by(alloc, rest);
    }
    if let Some(rest) = text.strip_prefix(b"grounds(") {
        return grounds(alloc, rest);
    }
    if let Some(rest) = text.strip_prefix(b"level(") {
        return level(alloc, rest);
    }
    other(alloc, text)
}

/// A fact that stands after the levels.
#[tactic(auto, unfolding(crate::specs::Parse::read_other))]
fn other(alloc: Global, text: &[u8]) -> Result<(ProveFact, &[u8]), LineFault>
    ensures value { Agrees result (read_other text.now) }
    ensures fits { IfOk result (λ p. HasParts p.0) }
{
    if let Some(rest) = text.strip_prefix(b"drops(") {
        return drops(alloc, rest);
    }
    if let Some(rest) = text.strip_prefix(b"floors(") {
        return floors(alloc, rest);
    }
    if let Some(rest) = text.strip_prefix(b"pre(") {
        return pre(alloc, rest);
    }
    if let Some(rest) = text.strip_prefix(b"none(") {
        return refuted(alloc, rest);
    }
    if let Some(rest) = text.strip_prefix(b"group(") {
        return group(alloc, rest);
    }
    if let Some(rest) = text.strip_prefix(b"point(") {
        return point(alloc, rest);
    }
    if let Some(rest) = text.strip_prefix(b"floor(") {
        return floor(alloc, rest);
    }
    note(alloc, text)
}

/// A note.
#[tactic(auto, unfolding(crate::specs::Parse::read_note))]
fn note(alloc: Global, text: &[u8]) -> Result<(ProveFact, &[u8]), LineFault>
    ensures value { Agrees result (read_note text.now) }
    ensures fits { IfOk result (λ p. HasParts p.0) }
{
    if let Some(rest) = text.strip_prefix(b"image(") {
        return image(alloc, rest);
    }
    if let Some(rest) = text.strip_prefix(b"step(") {
        return step(alloc, rest);
    }
    if let Some(rest) = text.strip_prefix(b"weak(image(") {
        return weak_image(alloc, rest);
    }
    if let Some(rest) = text.strip_prefix(b"weak(step(") {
        return weak_step(alloc, rest);
    }
    if let Some(rest) = text.strip_prefix(b"blown(") {
        return blown(alloc, rest);
    }
    Err(LineFault::NotAFact)
}

/// The fact in range at the front of a text. Its line may be spelled in another way than the fact is printed.
#[tactic(auto, unfolding(crate::specs::Parse::read_fact), using(crate::proofs::RangeLemmas::in_range))]
pub(crate) fn read_fact(alloc: Global, text: &[u8]) -> Result<(ProveFact, &[u8]), LineFault>
    ensures value { Agrees result (read_fact text.now) }
    ensures fits { IfOk result (λ p. InRange p.0) }
{
    let (fact, text) = any(alloc, text)?;
    if !has_amounts(&fact) {
        return Err(LineFault::NotAFact);
    }
    Ok((fact, text))
}

/// Whether the amounts of a fact are not below 0.
fn has_amounts(fact: &ProveFact) -> bool
    ensures { result ≡ list_all is_amount (amounts_of fact.now) }
{
    match fact {
        ProveFact::Ctiprove { version } => *version >= 0,
        ProveFact::By {
            scale,
            multipliers,
            ..
        }
        | ProveFact::Drops {
            scale,
            multipliers,
            ..
        }
        | ProveFact::Floors {
            scale,
            multipliers,
            ..
        } => *scale >= 0 && are_amounts(multipliers),
        ProveFact::Point { t, w, .. } | ProveFact::Floor { t, w, .. } => *t >= 0 && are_amounts(w),
        _ => true,
    }
}

/// Whether no number is below 0.
fn are_amounts(numbers: &Sequence<i128>) -> bool
    ensures { result ≡ list_all is_amount numbers.now }
{
    numbers.as_slice().iter().all(|number| *number >= 0)
}
