//! Files of the machine.

ghost use Rattle.std.specs.Prelude.{◌≤◌, None, IfOk, vec_len};

use crate::files::{Files, LoadFault};
use std::alloc::Global;
use std::io::{ErrorKind, Read};
use std::{fs, rt};

/// How many bytes are asked of a file at once.
const PIECE: usize = 4096;

/// Files by their paths, through a runtime. Contracts do not see their content.
#[derive(Drop)]
pub struct RealFiles<R: rt::Files + Drop> {
    pub runtime: R,
    /// How many loads failed, as the count of every name; it stays at 2^64 - 1.
    pub faults: u64,
}

/// The bytes of a reader to its end, where they are at most `most`. A read that was interrupted is tried again.
fn read_limited<R: Read>(alloc: Global, source: &mut R, most: u64) -> Result<Vec<u8>, LoadFault>
    ensures { IfOk result (λ v. vec_len v ≤ most) }
{
    let mut bytes = Vec::new(alloc);
    let mut buffer = [0u8; PIECE];
    for _ in 0..u64::MAX {
        let count = match source.read(&mut buffer) {
            Ok(0) => return Ok(bytes),
            Ok(count) => count,
            Err(error) if error.kind() == ErrorKind::Interrupted => continue,
            Err(_) => return Err(LoadFault::Failed),
        };
        if count as u64 > most - bytes.len() as u64 {
            return Err(LoadFault::TooLong);
        }
        if bytes.extend_from_slice(&buffer[..count]).is_err() {
            return Err(LoadFault::Memory);
        }
    }
    Err(LoadFault::Failed)
}

impl<R: rt::Files + Drop> Files for RealFiles<R> {
    ghost told = { λ s. None };

    ghost faults = { λ s n. s.faults };

    fn load(&mut self, alloc: Global, name: &str, most: u64) -> Result<Vec<u8>, LoadFault> {
        let loaded = match fs::open(&self.runtime, name) {
            Ok(mut file) => read_limited(alloc, &mut file, most),
            Err(_) => Err(LoadFault::Failed),
        };
        if let Err(LoadFault::Failed) = &loaded {
            self.faults = self.faults.saturating_add(1);
        }
        loaded
    }
}
