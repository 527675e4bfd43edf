//! Texts of facts.

ghost use Rattle.std.specs.Prelude.{◌≡◌, ◌++◌, OnOk};
ghost use Rattle.certificate.specs.Text.{text_of};

use certificate::{Certificate, Fact};
use sequences::Sequence;
use std::alloc::{AllocError, Global};

/// Appends the text of facts.
pub fn print_facts(
    alloc: Global,
    facts: Sequence<Fact>,
    out: &mut Vec<u8>,
) -> Result<(), AllocError>
    ensures { OnOk result (out.new.items ≡ out.old.items ++ text_of facts) }
{
    let text = Certificate { facts }.print(alloc)?;
    out.extend_from_slice(text.as_slice())
}
