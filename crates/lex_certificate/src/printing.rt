//! The line of a fact.

ghost use Rattle.std.specs.Prelude.{◌≡◌, ◌++◌, OnOk};
ghost use Rattle.lex_certificate.specs.Text.{fact_text};
ghost use Rattle.lex_certificate.specs.Lines.{other_text};

use crate::fact::LexFact;
use certificate::{line_of_four, line_of_mark, line_of_one, line_of_three, line_of_two, line_part};
use std::alloc::AllocError;

/// Appends the line of a fact.
pub(crate) fn print_fact(fact: &LexFact, out: &mut Vec<u8>) -> Result<(), AllocError>
    ensures { OnOk result (out.new.items ≡ out.old.items ++ fact_text fact.now) }
{
    match fact {
        LexFact::Ctilex { version } => line_of_one(out, b"ctilex(", version),
        LexFact::Terminates { pred, modes } => line_of_two(out, b"terminates(", pred, modes),
        LexFact::Size { pred, index, row } => line_of_three(out, b"size(", pred, index, row),
        LexFact::By {
            clause,
            index,
            scale,
            multipliers,
        } => line_of_four(out, b"by(", clause, index, scale, multipliers),
        LexFact::Grounds { pred, index, cube } => line_of_three(
            out,
            b"grounds(",
            pred,
            index,
            cube,
        ),
        LexFact::Level {
            pred,
            list,
            index,
            coeffs,
            offset,
        } => {
            line_part(out, b"level(", pred)?;
            line_of_four(out, b",", list, index, coeffs, offset)
        }
        LexFact::Drops {
            clause,
            call,
            list,
            index,
            scale,
            multipliers,
        } => {
            line_part(out, b"drops(", clause)?;
            line_part(out, b",", call)?;
            line_of_four(out, b",", list, index, scale, multipliers)
        }
        LexFact::Pre {
            pred,
            list,
            index,
            cube,
        } => line_of_four(out, b"pre(", pred, list, index, cube),
        _ => print_other(fact, out),
    }
}

/// Appends the line of a stuck set's fact or of a note, and nothing for another fact.
fn print_other(fact: &LexFact, out: &mut Vec<u8>) -> Result<(), AllocError>
    ensures { OnOk result (out.new.items ≡ out.old.items ++ other_text fact.now) }
{
    match fact {
        LexFact::Refuted { pred, points } => line_of_two(out, b"none(", pred, points),
        LexFact::Point { clause, call, t, w } => line_of_four(out, b"point(", clause, call, t, w),
        LexFact::Image {
            step,
            clause,
            pred,
            rows,
        } => line_of_four(out, b"image(", step, clause, pred, rows),
        LexFact::Step {
            step,
            pred,
            how,
            rows,
        } => line_of_four(out, b"step(", step, pred, how, rows),
        LexFact::WeakImage { step } => line_of_mark(out, b"weak(image(", step),
        LexFact::WeakStep { step } => line_of_mark(out, b"weak(step(", step),
        LexFact::Blown { pred } => line_of_one(out, b"blown(", pred),
        _ => Ok(()),
    }
}
