//! Why a certificate has no parts.

use fact_reading::StructureReason;
use std::alloc::AllocError;
use thiserror::Error;

/// Why a certificate has no parts.
#[derive(Clone, Copy, Debug, PartialEq, Eq, Error)]
pub enum PartsFault {
    /// The fact of this line, counted from 1, is the first that is wrong. Where a fact is missing, the line is that
    /// after the last.
    #[error("line {line} of the certificate: {reason}")]
    Wrong { line: u64, reason: StructureReason },
    /// Memory ran out.
    #[error("out of memory")]
    Memory,
}

impl From<AllocError> for PartsFault {
    ghost use Rattle.std.specs.Prelude.{◌≡◌};
    ghost use Rattle.cert_structure.specs.declared.fault.PartsFault.TheVariants.{Memory};

    ghost from_gives = { λ _ e. e ≡ Memory };

    fn from(_error: AllocError) -> PartsFault {
        PartsFault::Memory
    }
}
