//! A writer of the machine.

ghost use Rattle.std.specs.Prelude.{◌≡◌, ◌≤◌, ◌++◌, ◌⊎◌, [], None, ℕ, length, take, IfOk};

use crate::sink::{Sink, SinkFault};
use std::alloc::Global;
use std::io::{ErrorKind, Write};

/// A writer such as standard output, and the beginning of what it took. Contracts do not see the bytes that it took.
#[derive(Drop)]
pub struct RealSink<W: Write + Drop> {
    pub inner: W,
    /// How many writes failed; it stays at 2^64 - 1.
    pub faults: u64,
    /// How many bytes were taken; it stays at 2^64 - 1.
    taken: u64,
    /// The first of them, while they are at most `most` and there is memory.
    text: Vec<u8>,
    /// The most bytes that are kept.
    most: usize,
}

impl<W: Write + Drop> RealSink<W> {
    /// A sink before a first byte, which keeps the first bytes that it takes, at most `most`.
    pub fn new(alloc: Global, inner: W, most: usize) -> RealSink<W>
        ensures { (result.text.items ≡ []) × (result.faults ≡ 0) × (result.taken ≡ 0) }
    {
        RealSink {
            inner,
            faults: 0,
            taken: 0,
            text: Vec::new(alloc),
            most,
        }
    }

    /// The first bytes that were taken, as many as were kept.
    pub fn head(&self) -> &[u8]
        ensures { result.now ≡ self.now.text.items }
    {
        &self.text
    }

    /// How many bytes were taken; it stays at 2^64 - 1.
    pub fn taken(&self) -> u64
        ensures { result ≡ self.now.taken }
    {
        self.taken
    }

    /// What was taken, or nothing where not all of it was kept.
    pub fn text(&self) -> &[u8]
        ensures { (result.now ≡ self.now.text.items) ⊎ (result.now ≡ []) }
    {
        if self.text.len() as u64 == self.taken {
            &self.text
        } else {
            &[]
        }
    }

    /// Notes bytes that were taken.
    fn note(&mut self, bytes: &[u8])
        ensures faults { self.new.faults ≡ self.old.faults }
        ensures text { (n : ℕ) × (self.new.text.items ≡ self.old.text.items ++ take n bytes.now) }
    {
        let room = self.most.saturating_sub(self.text.len());
        if self.text.len() as u64 == self.taken {
            // What there is no memory for is not kept.
            let _ = self.text.extend_from_slice(&bytes[..bytes.len().min(room)]);
        }
        self.taken = self.taken.saturating_add(bytes.len() as u64);
    }
}

/// Writes the first bytes of a piece and answers how many. A write that was interrupted is tried again.
fn write_some<W: Write>(inner: &mut W, piece: &[u8]) -> Result<usize, SinkFault>
    ensures { IfOk result (λ n. n ≤ length piece.now) }
{
    for _ in 0..u64::MAX {
        match inner.write(piece) {
            Ok(count) => return Ok(count),
            Err(error) if error.kind() == ErrorKind::Interrupted => continue,
            Err(_) => return Err(SinkFault::Failed),
        }
    }
    Err(SinkFault::Failed)
}

impl<W: Write + Drop> Sink for RealSink<W> {
    ghost taken = { λ s. None };

    ghost faults = { λ s. s.faults };

    fn write(&mut self, piece: &[u8]) -> Result<usize, SinkFault> {
        if piece.is_empty() {
            return Ok(0);
        }
        match write_some(&mut self.inner, piece) {
            Ok(count) if count > 0 => {
                self.note(&piece[..count]);
                Ok(count)
            }
            _ => {
                self.faults = self.faults.saturating_add(1);
                Err(SinkFault::Failed)
            }
        }
    }
}
