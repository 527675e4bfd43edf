//! A sink of bytes.

ghost use Rattle.std.specs.Prelude.{◌≡◌, ◌≤◌, ◌<◌, List, ℕ, Option, length, take, IfOk, OnErr};
ghost use Rattle.outside.specs.Causes.{Rose};
ghost use Rattle.outside.specs.Told.{Takes};

/// Why a sink took nothing.
#[derive(Clone, Copy, Debug, PartialEq, Eq)]
pub enum SinkFault {
    /// The sink failed. Its count of faults rose in that call.
    Failed,
}

/// A sink of bytes. It counts its faults, and the bytes that it took may be visible to contracts.
pub trait Sink {
    /// The bytes taken so far, where contracts see them.
    ghost taken: { Self → Option (List ℕ) };

    /// How often a write has failed.
    ghost faults: { Self → ℕ };

    /// Takes the first bytes of a piece, at least one where there is one, and answers how many. It takes no memory.
    fn write(&mut self, piece: &[u8]) -> Result<usize, SinkFault>
        ensures takes { IfOk result
            (λ n. Takes (taken self.old) (take n piece.now) (taken self.new)) }
        ensures bound { IfOk result (λ n. n ≤ length piece.now) }
        ensures some { IfOk result (λ n. 0 < length piece.now → 0 < n) }

        // After a fault nothing was taken.
        ensures kept { OnErr result (taken self.new ≡ taken self.old) }
        ensures cause { OnErr result (Rose (faults self.old) (faults self.new)) }
        ensures later { faults self.old ≤ faults self.new };
}
