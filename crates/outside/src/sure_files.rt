//! Files in memory that never fail.

ghost use Rattle.std.specs.Prelude.{Some};
ghost use Rattle.outside.specs.Held.{held_or_empty};

use crate::files::{Files, LoadFault};
use std::alloc::Global;
use std::collections::BTreeMap;

/// Files in memory that never fail: a name that is not there is an empty file. Contracts see its map.
#[derive(Drop)]
pub struct SureFiles {
    pub files: BTreeMap<String, Vec<u8>>,
}

impl Files for SureFiles {
    ghost told = { λ s. Some (held_or_empty s.files) };

    ghost faults = { λ s n. 0 };

    fn load(&mut self, alloc: Global, name: &str, most: u64) -> Result<Vec<u8>, LoadFault> {
        let Some(bytes) = self.files.get(name) else {
            return Ok(Vec::new(alloc));
        };
        if bytes.len() as u64 > most {
            return Err(LoadFault::TooLong);
        }
        match Vec::from_slice(alloc, bytes) {
            Ok(copy) => Ok(copy),
            Err(_) => Err(LoadFault::Memory),
        }
    }
}
