//! Parts of a fact.

ghost use Rattle.std.specs.Prelude.{◌≡◌, ◌++◌, ℕ, ◌<◌, List, length, Some, Option, OnOk, IfOk};
ghost use Rattle.certificate.specs.Parse.{Agrees};

use crate::line_fault::LineFault;
use std::alloc::{AllocError, Global};

/// A value that is a part of a fact: it is printed, and read at the front of a text.
pub trait Field: Drop {
    /// The text of a value.
    ghost shown: { Self → List ℕ };

    /// What is read at the front of a text, and the text after it.
    ghost reads: { List ℕ → Option (Self × List ℕ) };

    /// The values that are in range.
    ghost fits: { Self → Type 0 };

    /// Appends the text.
    fn print(&self, out: &mut Vec<u8>) -> Result<(), AllocError>
        ensures { OnOk result (out.new.items ≡ out.old.items ++ shown self.now) };

    /// The value at the front of a text, and the text after it.
    fn read(alloc: Global, text: &[u8]) -> Result<(Self, &[u8]), LineFault>
        ensures value { Agrees result (reads text.now) }
        ensures fits { IfOk result (λ p. fits p.0) };

    /// What is read takes some bytes.
    ghost shortens: { (s t : List ℕ) (x : Self) → reads s ≡ Some (x, t) → length t < length s };
}
