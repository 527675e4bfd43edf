//! Lines of facts: a name, and parts in parentheses. The facts of any kind of certificate are printed by them.

ghost use Rattle.std.specs.Prelude.{◌≡◌, ◌++◌, codes, decimal, OnOk};

use crate::field::Field;
use std::alloc::AllocError;

/// Appends a text and a part after it.
pub fn line_part<T: Field>(out: &mut Vec<u8>, before: &[u8], part: &T) -> Result<(), AllocError>
    ensures { OnOk result (out.new.items ≡ out.old.items ++ before.now ++ T.shown part.now) }
{
    out.extend_from_slice(before)?;
    part.print(out)
}

/// Appends the end of a line after its last part.
fn end_line(out: &mut Vec<u8>) -> Result<(), AllocError>
    ensures { OnOk result (out.new.items ≡ out.old.items ++ codes ").\n") }
{
    out.extend_from_slice(b").\n")
}

/// Appends the line of a weak image or a weak step: a text up to the step's number, the number, and the end of the
/// line.
pub fn line_of_mark(out: &mut Vec<u8>, before: &[u8], step: &u64) -> Result<(), AllocError>
    ensures { OnOk result (out.new.items ≡ out.old.items ++ before.now ++ decimal step.now
        ++ codes ")).\n") }
{
    line_part(out, before, step)?;
    out.extend_from_slice(b")).\n")
}

/// Appends a text, one part, and the end of the line.
pub fn line_of_one<A: Field>(out: &mut Vec<u8>, before: &[u8], a: &A) -> Result<(), AllocError>
    ensures { OnOk result (out.new.items ≡ out.old.items ++ before.now ++ A.shown a.now
        ++ codes ").\n") }
{
    line_part(out, before, a)?;
    end_line(out)
}

/// Appends a text, two parts with a comma between them, and the end of the line.
pub fn line_of_two<A: Field, B: Field>(
    out: &mut Vec<u8>,
    before: &[u8],
    a: &A,
    b: &B,
) -> Result<(), AllocError>
    ensures { OnOk result (out.new.items ≡ out.old.items ++ before.now ++ A.shown a.now ++ codes ","
        ++ B.shown b.now ++ codes ").\n") }
{
    line_part(out, before, a)?;
    line_of_one(out, b",", b)
}

/// Appends a text, three parts with commas between, and the end of the line.
pub fn line_of_three<A: Field, B: Field, C: Field>(
    out: &mut Vec<u8>,
    before: &[u8],
    a: &A,
    b: &B,
    c: &C,
) -> Result<(), AllocError>
    ensures { OnOk result (out.new.items ≡ out.old.items ++ before.now ++ A.shown a.now ++ codes ","
        ++ B.shown b.now ++ codes "," ++ C.shown c.now ++ codes ").\n") }
{
    line_part(out, before, a)?;
    line_of_two(out, b",", b, c)
}

/// Appends a text, four parts with commas between, and the end of the line.
pub fn line_of_four<A: Field, B: Field, C: Field, D: Field>(
    out: &mut Vec<u8>,
    before: &[u8],
    a: &A,
    b: &B,
    c: &C,
    d: &D,
) -> Result<(), AllocError>
    ensures { OnOk result (out.new.items ≡ out.old.items ++ before.now ++ A.shown a.now ++ codes ","
        ++ B.shown b.now ++ codes "," ++ C.shown c.now ++ codes "," ++ D.shown d.now
        ++ codes ").\n") }
{
    line_part(out, before, a)?;
    line_of_three(out, b",", b, c, d)
}
