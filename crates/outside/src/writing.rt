//! Writing a whole text.

ghost use Rattle.std.specs.Prelude.{◌≡◌, ◌≤◌, OnOk, OnErr};
ghost use Rattle.outside.specs.Causes.{Rose};
ghost use Rattle.outside.specs.Told.{Takes, TakesPart};

use crate::sink::{Sink, SinkFault};

/// Writes a text, each time all of it that is not yet taken.
///
/// After a fault the sink has taken a proper prefix of the text.
pub fn write_text<S: Sink>(text: &[u8], out: &mut S) -> Result<(), SinkFault>
    ensures whole { OnOk result (Takes (S.taken out.old) text.now (S.taken out.new)) }
    ensures part { OnErr result (TakesPart (S.taken out.old) text.now (S.taken out.new)) }
    ensures cause { OnErr result (Rose (S.faults out.old) (S.faults out.new)) }
    ensures later { S.faults out.old ≤ S.faults out.new }
{
    let mut done = 0;
    while done < text.len() {
        done += out.write(&text[done..])?;
    }
    Ok(())
}
