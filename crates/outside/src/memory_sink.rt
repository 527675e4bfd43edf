//! A sink in memory.

ghost use Rattle.std.specs.Prelude.{◌≡◌, ◌≤◌, ◌<◌, ◌++◌, ◌⊎◌, Some, false, true, length, min, take, nat_eq, IfOk, OnOk, OnErr};
ghost use Rattle.std.specs.List.{list_any};
ghost use Rattle.outside.specs.Counted.{one_more};
ghost use Rattle.outside.specs.Causes.{Rose};
ghost use Rattle.outside.specs.Told.{Takes};

use crate::sink::{Sink, SinkFault};

/// A sink in memory, whose writes fail where a list says so. Contracts see the bytes that it took.
///
/// Each write adds one to `calls`. It fails, and takes nothing, where the new number stands in `fails`; where a piece
/// that is not empty meets a `chunk` of 0; or where `taken` finds no memory to grow. Else it takes the first `chunk`
/// bytes of the piece, or all of it where it has fewer. So `calls` is 0 in a new sink, and then `fails` numbers the
/// writes from 1. A write that found no memory is counted in `refused` as well.
#[derive(Drop)]
pub struct MemSink {
    /// The bytes taken, from those that were there at the start on.
    pub taken: Vec<u8>,
    /// The most bytes that one write takes.
    pub chunk: usize,
    /// The numbers of the writes that fail, in any order.
    pub fails: Vec<u64>,
    /// How many writes there were, failed ones too; it stays at 2^64 - 1.
    pub calls: u64,
    /// How many of them failed; it stays at 2^64 - 1.
    pub faults: u64,
    /// How many of these found no memory; it stays at 2^64 - 1.
    pub refused: u64,
}

impl Sink for MemSink {
    ghost taken = { λ s. Some s.taken.items };

    ghost faults = { λ s. s.faults };

    fn write(&mut self, piece: &[u8]) -> Result<usize, SinkFault>
        ensures takes { IfOk result
            (λ n. Takes (Some self.old.taken.items) (take n piece.now)
            (Some self.new.taken.items)) }
        ensures bound { IfOk result (λ n. n ≤ length piece.now) }
        ensures some { IfOk result (λ n. 0 < length piece.now → 0 < n) }
        ensures kept { OnErr result (Some self.new.taken.items ≡ Some self.old.taken.items) }
        ensures cause { OnErr result (Rose self.old.faults self.new.faults) }
        ensures later { self.old.faults ≤ self.new.faults }

        // A write counts as a call, and as a fault exactly where it fails. It fails where its number is listed or a
        // piece meets a chunk of 0, and else only where there is no memory.
        ensures calls { self.new.calls ≡ one_more self.old.calls }
        ensures faults { OnErr result (self.new.faults ≡ one_more self.old.faults) }
        ensures calm { OnOk result (self.new.faults ≡ self.old.faults) }
        ensures chunk { IfOk result (λ n. n ≡ min (length piece.now) self.old.chunk) }
        ensures fails { OnOk result (list_any (nat_eq self.new.calls) self.old.fails.items
            ≡ false) }
        ensures failed { OnErr result ((list_any (nat_eq self.new.calls) self.old.fails.items ≡ true)
            ⊎ (self.old.chunk ≡ 0) ⊎ (self.new.refused ≡ one_more self.old.refused)) }
        ensures unrefused { OnOk result (self.new.refused ≡ self.old.refused) }
        ensures stays { (self.new.fails ≡ self.old.fails) × (self.new.chunk ≡ self.old.chunk) }
    {
        self.calls = self.calls.saturating_add(1);
        if self.fails.contains(&self.calls) {
            self.faults = self.faults.saturating_add(1);
            return Err(SinkFault::Failed);
        }
        let count = piece.len().min(self.chunk);
        if count == 0 && !piece.is_empty() {
            self.faults = self.faults.saturating_add(1);
            return Err(SinkFault::Failed);
        }
        if self.taken.extend_from_slice(&piece[..count]).is_err() {
            self.faults = self.faults.saturating_add(1);
            self.refused = self.refused.saturating_add(1);
            return Err(SinkFault::Failed);
        }
        Ok(count)
    }
}
