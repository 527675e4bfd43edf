//! The text of a fact.

ghost use Rattle.std.specs.Prelude.{◌≡◌, ◌++◌, OnOk};
ghost use Rattle.certificate.specs.Text.{fact_text};
ghost use Rattle.certificate.specs.Parse.{other_text};

use crate::fact::Fact;
use crate::line::{line_of_four, line_of_mark, line_of_one, line_of_three, line_of_two, line_part};
use std::alloc::AllocError;

/// Appends the line of a fact.
pub fn print_fact(fact: &Fact, out: &mut Vec<u8>) -> Result<(), AllocError>
    ensures { OnOk result (out.new.items ≡ out.old.items ++ fact_text fact.now) }
{
    match fact {
        Fact::Cti { version } => line_of_one(out, b"cti(", version),
        Fact::Norm { norm } => line_of_one(out, b"norm(", norm),
        Fact::Terminates { pred, modes } => line_of_two(out, b"terminates(", pred, modes),
        Fact::Size { pred, index, row } => line_of_three(out, b"size(", pred, index, row),
        Fact::By {
            clause,
            index,
            scale,
            multipliers,
        } => line_of_four(out, b"by(", clause, index, scale, multipliers),
        Fact::Grounds { pred, index, cube } => line_of_three(out, b"grounds(", pred, index, cube),
        Fact::Measure {
            pred,
            mapping,
            coeffs,
            offset,
        } => line_of_four(out, b"measure(", pred, mapping, coeffs, offset),
        Fact::Falls {
            clause,
            call,
            mapping,
            scale,
            multipliers,
        } => {
            line_part(out, b"falls(", clause)?;
            line_of_four(out, b",", call, mapping, scale, multipliers)
        }
        Fact::Pre {
            pred,
            mapping,
            index,
            cube,
        } => line_of_four(out, b"pre(", pred, mapping, index, cube),
        _ => print_other(fact, out),
    }
}

/// Appends the line of a refutation's fact or of a note, and nothing for another fact.
fn print_other(fact: &Fact, out: &mut Vec<u8>) -> Result<(), AllocError>
    ensures { OnOk result (out.new.items ≡ out.old.items ++ other_text fact.now) }
{
    match fact {
        Fact::Refuted { pred, points } => line_of_two(out, b"none(", pred, points),
        Fact::Point { clause, call, t, w } => line_of_four(out, b"point(", clause, call, t, w),
        Fact::At { clause, call, t, w } => line_of_four(out, b"at(", clause, call, t, w),
        Fact::Image {
            step,
            clause,
            pred,
            rows,
        } => line_of_four(out, b"image(", step, clause, pred, rows),
        Fact::Step {
            step,
            pred,
            how,
            rows,
        } => line_of_four(out, b"step(", step, pred, how, rows),
        Fact::WeakImage { step } => line_of_mark(out, b"weak(image(", step),
        Fact::WeakStep { step } => line_of_mark(out, b"weak(step(", step),
        Fact::Blown { pred, support } => line_of_two(out, b"blown(", pred, support),
        Fact::Large { pred, positions } => line_of_two(out, b"large(", pred, positions),
        _ => Ok(()),
    }
}
