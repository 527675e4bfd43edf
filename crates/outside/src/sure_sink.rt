//! A sink that never fails.

ghost use Rattle.std.specs.Prelude.{◌≡◌, ◌≤◌, ◌<◌, List, ℕ, Option, None, length, take, IfOk, OnErr};
ghost use Rattle.outside.specs.Causes.{Rose};
ghost use Rattle.outside.specs.Told.{Takes};

use crate::sink::{Sink, SinkFault};

/// A sink that never fails: it takes each piece whole and drops it. Contracts do not see its bytes.
#[derive(Clone, Copy)]
pub struct SureSink;

impl Sink for SureSink {
    ghost taken = { λ s. None };

    ghost faults = { λ s. 0 };

    fn write(&mut self, piece: &[u8]) -> Result<usize, SinkFault>
        ensures takes { IfOk result (λ n. Takes None (take n piece.now) None) }
        ensures bound { IfOk result (λ n. n ≤ length piece.now) }
        ensures some { IfOk result (λ n. 0 < length piece.now → 0 < n) }
        ensures kept { OnErr result (◌≡◌ {A = Option (List ℕ)} None None) }
        ensures cause { OnErr result (Rose 0 0) }
        ensures later { 0 ≤ 0 }

        // The whole piece is taken.
        ensures whole { IfOk result (λ n. n ≡ length piece.now) }
    {
        Ok(piece.len())
    }
}
