//! Files in memory.

ghost use Rattle.std.specs.Prelude.{◌≡◌, ◌≤◌, ◌⊎◌, ℕ, List, Some, None, true, false, nat_eq, vec_len, IfOk, IsErrOf};
ghost use Rattle.std.specs.List.{list_any};
ghost use Rattle.outside.specs.Causes.{Rose};
ghost use Rattle.outside.specs.Counted.{one_more};
ghost use Rattle.outside.specs.Held.{held};
ghost use Rattle.outside.specs.Told.{TellsAt, TellsMore};
ghost use Rattle.outside.specs.declared.files.LoadFault.TheVariants.{Failed, TooLong};

use crate::files::{Files, LoadFault};
use std::alloc::Global;
use std::collections::BTreeMap;

/// Files in memory, whose loads fail where a list says so. Contracts see its map.
///
/// Each load adds one to `calls`. It fails where the new number stands in `fails`, whatever is asked for, or where
/// `files` has no such name; else it gives the bytes. So `calls` is 0 in a new store, and then `fails` numbers the
/// loads from 1. A store with a greater `calls` is one that has had that many loads already.
#[derive(Drop)]
pub struct MemFiles {
    /// The bytes at each name.
    pub files: BTreeMap<String, Vec<u8>>,
    /// The numbers of the loads that fail, in any order.
    pub fails: Vec<u64>,
    /// How many loads there were, failed ones too; it stays at 2^64 - 1.
    pub calls: u64,
    /// How many of them failed, as the count of every name; it stays at 2^64 - 1.
    pub faults: u64,
}

impl MemFiles {
    /// Counts a fault.
    fn failed(&mut self) -> LoadFault
        ensures fault { result ≡ LoadFault.Failed }
        ensures faults { self.new.faults ≡ one_more self.old.faults }
        ensures later { self.old.faults ≤ self.new.faults }
        ensures stays { (self.new.files ≡ self.old.files) × (self.new.fails ≡ self.old.fails)
            × (self.new.calls ≡ self.old.calls) }
    {
        self.faults = self.faults.saturating_add(1);
        LoadFault::Failed
    }
}

impl Files for MemFiles {
    ghost told = { λ s. Some (held s.files) };

    ghost faults = { λ s n. s.faults };

    fn load(&mut self, alloc: Global, name: &str, most: u64) -> Result<Vec<u8>, LoadFault>
        ensures bytes { IfOk result (λ v. TellsAt (Some (held self.old.files)) name.now v.items) }
        ensures bound { IfOk result (λ v. vec_len v ≤ most) }
        ensures long { IsErrOf result TooLong
            → TellsMore (Some (held self.old.files)) name.now most }
        ensures cause { IsErrOf result Failed → Rose self.old.faults self.new.faults }
        ensures later { (n : List ℕ) → self.old.faults ≤ self.new.faults }
        ensures calm { (IsErrOf result Failed → ⊥) → (n : List ℕ)
            → self.new.faults ≡ self.old.faults }
        ensures stays { Some (held self.new.files) ≡ Some (held self.old.files) }

        // A load counts as a call, and as a fault where it fails; it fails exactly where its number is listed or the
        // name is not there.
        ensures calls { self.new.calls ≡ one_more self.old.calls }
        ensures faults { IsErrOf result Failed → self.new.faults ≡ one_more self.old.faults }
        ensures fails { (IsErrOf result Failed → ⊥)
            → list_any (nat_eq self.new.calls) self.old.fails.items ≡ false }
        ensures failed { IsErrOf result Failed
            → (list_any (nat_eq self.new.calls) self.old.fails.items ≡ true)
            ⊎ (held self.old.files name.now ≡ None) }
        ensures same { (self.new.files ≡ self.old.files) × (self.new.fails ≡ self.old.fails) }
    {
        self.calls = self.calls.saturating_add(1);
        if self.fails.contains(&self.calls) {
            return Err(self.failed());
        }
        let Some(bytes) = self.files.get(name) else {
            return Err(self.failed());
        };
        if bytes.len() as u64 > most {
            return Err(LoadFault::TooLong);
        }
        match Vec::from_slice(alloc, bytes) {
            Ok(copy) => Ok(copy),
            Err(_) => Err(LoadFault::Memory),
        }
    }
}
