//! A store of named files.

ghost use Rattle.std.specs.Prelude.{◌≡◌, ◌≤◌, List, ℕ, vec_len, IfOk, IsErrOf};
ghost use Rattle.outside.specs.Causes.{Rose};
ghost use Rattle.outside.specs.Told.{Map, TellsAt, TellsMore};
ghost use Rattle.outside.specs.declared.files.LoadFault.TheVariants.{Failed, TooLong};

use std::alloc::Global;

/// Why a file was not loaded.
#[derive(Clone, Copy, Debug, PartialEq, Eq)]
pub enum LoadFault {
    /// The store failed, or has no file of that name. The name's count of faults rose in that call.
    Failed,
    /// The file has more bytes than were allowed.
    TooLong,
    /// There was no memory for the bytes.
    Memory,
}

/// A store of named files. It counts the faults of each name, and what it holds may be visible to contracts.
///
/// An implementation may keep one number as the count of every name. A count stays at 2^64 - 1 once it is there.
pub trait Files {
    /// The bytes at each name, where contracts see them.
    ghost told: { Self → Map };

    /// How often the loads of a name have failed.
    ghost faults: { Self → List ℕ → ℕ };

    /// Loads a file of at most `most` bytes.
    fn load(&mut self, alloc: Global, name: &str, most: u64) -> Result<Vec<u8>, LoadFault>
        ensures bytes { IfOk result (λ v. TellsAt (told self.old) name.now v.items) }
        ensures bound { IfOk result (λ v. vec_len v ≤ most) }
        ensures long { IsErrOf result TooLong → TellsMore (told self.old) name.now most }
        ensures cause { IsErrOf result Failed
            → Rose (faults self.old name.now) (faults self.new name.now) }

        // No count falls, and only a failed load makes one greater.
        ensures later { (n : List ℕ) → faults self.old n ≤ faults self.new n }
        ensures calm { (IsErrOf result Failed → ⊥) → (n : List ℕ)
            → faults self.new n ≡ faults self.old n }

        // No load changes what contracts see, whatever it answers.
        ensures stays { told self.new ≡ told self.old };
}
