//! Facts, each on a line of its own.

ghost use Rattle.std.specs.Prelude.{◌≡◌, ◌++◌, ◌∷◌, ℕ, List, Some, Option, OnOk, IfOk};
ghost use Rattle.certificate.specs.Lines.{lines};
ghost use Rattle.certificate.specs.Parse.{Agrees};

use certificate::LineFault;
use std::alloc::{AllocError, Global};

/// A fact of a kind of certificate: it is printed as a line, and read at the front of a text.
pub trait Line: Drop {
    /// The line of a fact, with the newline that ends it.
    ghost shown: { Self → List ℕ };

    /// The facts whose names and numbers are in range.
    ghost fits: { Self → Type 0 };

    /// What is read at the front of a text, and the text after it.
    ghost reads: { List ℕ → Option (Self × List ℕ) };

    /// Appends the line.
    fn print_line(&self, out: &mut Vec<u8>) -> Result<(), AllocError>
        ensures { OnOk result (out.new.items ≡ out.old.items ++ shown self.now) };

    /// The fact in range at the front of a text, and the text after it. Its line may be spelled in another way than the
    /// fact is printed.
    fn read_line(alloc: Global, text: &[u8]) -> Result<(Self, &[u8]), LineFault>
        ensures value { Agrees result (reads text.now) }
        ensures fits { IfOk result (λ p. fits p.0) };

    /// What is printed of a fact in range is one line.
    ghost one_line: { (f : Self) (s : List ℕ) → fits f → lines (shown f ++ s) ≡ shown f ∷ lines s };

    /// What is printed of a fact in range is read back, whatever follows.
    ghost read_back: { (f : Self) (s : List ℕ) → fits f → reads (shown f ++ s) ≡ Some (f, s) };
}
