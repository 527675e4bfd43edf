//! The line of a fact.

ghost use Rattle.std.specs.Prelude.{◌≡◌, ◌++◌, OnOk};
ghost use Rattle.prove_certificate.specs.Text.{fact_text};
ghost use Rattle.prove_certificate.specs.Printed.{note_text, other_text};

use crate::fact::ProveFact;
use certificate::{line_of_four, line_of_mark, line_of_one, line_of_three, line_of_two, line_part};
use std::alloc::AllocError;

/// Appends the line of a fact.
pub(crate) fn print_fact(fact: &ProveFact, out: &mut Vec<u8>) -> Result<(), AllocError>
    ensures { OnOk result (out.new.items ≡ out.old.items ++ fact_text fact.now) }
{
    match fact {
        ProveFact::Ctiprove { version } => line_of_one(out, b"ctiprove(", version),
        ProveFact::Terminates { pred, modes } => line_of_two(out, b"terminates(", pred, modes),
        ProveFact::Kinds { pred, kinds } => line_of_two(out, b"kinds(", pred, kinds),
        ProveFact::Fails { pred } => line_of_one(out, b"fails(", pred),
        ProveFact::Size { pred, index, row } => line_of_three(out, b"size(", pred, index, row),
        ProveFact::By {
            clause,
            index,
            scale,
            multipliers,
        } => line_of_four(out, b"by(", clause, index, scale, multipliers),
        ProveFact::Grounds { pred, index, cube } => line_of_three(
            out,
            b"grounds(",
            pred,
            index,
            cube,
        ),
        ProveFact::Level {
            pred,
            list,
            index,
            coeffs,
            offset,
        } => {
            line_part(out, b"level(", pred)?;
            line_of_four(out, b",", list, index, coeffs, offset)
        }
        _ => print_other(fact, out),
    }
}

/// Appends the line of a fact that stands after the levels, and nothing for another fact.
fn print_other(fact: &ProveFact, out: &mut Vec<u8>) -> Result<(), AllocError>
    ensures { OnOk result (out.new.items ≡ out.old.items ++ other_text fact.now) }
{
    match fact {
        ProveFact::Drops {
            clause,
            call,
            list,
            index,
            scale,
            multipliers,
        } => {
            line_part(out, b"drops(", clause)?;
            line_part(out, b",", call)?;
            line_of_four(out, b",", list, index, scale, multipliers)
        }
        ProveFact::Floors {
            clause,
            call,
            list,
            scale,
            multipliers,
        } => {
            line_part(out, b"floors(", clause)?;
            line_of_four(out, b",", call, list, scale, multipliers)
        }
        ProveFact::Pre {
            pred,
            list,
            index,
            cube,
        } => line_of_four(out, b"pre(", pred, list, index, cube),
        ProveFact::Refuted { pred, groups } => line_of_two(out, b"none(", pred, groups),
        ProveFact::Group { clause, call } => line_of_two(out, b"group(", clause, call),
        ProveFact::Point { clause, call, t, w } => line_of_four(out, b"point(", clause, call, t, w),
        ProveFact::Floor { clause, call, t, w } => line_of_four(out, b"floor(", clause, call, t, w),
        _ => print_note(fact, out),
    }
}

/// Appends the line of a note, and nothing for another fact.
fn print_note(fact: &ProveFact, out: &mut Vec<u8>) -> Result<(), AllocError>
    ensures { OnOk result (out.new.items ≡ out.old.items ++ note_text fact.now) }
{
    match fact {
        ProveFact::Image {
            step,
            clause,
            pred,
            rows,
        } => line_of_four(out, b"image(", step, clause, pred, rows),
        ProveFact::Step {
            step,
            pred,
            how,
            rows,
        } => line_of_four(out, b"step(", step, pred, how, rows),
        ProveFact::WeakImage { step } => line_of_mark(out, b"weak(image(", step),
        ProveFact::WeakStep { step } => line_of_mark(out, b"weak(step(", step),
        ProveFact::Blown { pred, support } => line_of_two(out, b"blown(", pred, support),
        _ => Ok(()),
    }
}
