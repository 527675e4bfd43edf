//! Parts of predicates in level mappings.

ghost use Rattle.std.specs.Prelude.{◌≡◌, IfOk};

use linear_rows::Numbers;
use std::alloc::{AllocError, Global};

/// A predicate's part of a level mapping: a coefficient for each argument, and the offset.
#[derive(Drop)]
pub struct LevelPart {
    pub coeffs: Numbers,
    pub offset: i128,
}

impl LevelPart {
    /// A copy, in memory of its own.
    pub fn copy(&self, alloc: Global) -> Result<LevelPart, AllocError>
        ensures { IfOk result (λ copy. copy ≡ self.now) }
    {
        let coeffs = self.coeffs.copy(alloc)?;
        Ok(LevelPart {
            coeffs,
            offset: self.offset,
        })
    }
}
