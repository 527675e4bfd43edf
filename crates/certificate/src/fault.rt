//! Why a text is not a certificate.

use std::alloc::AllocError;
use thiserror::Error;

/// Why a text is not read as a certificate.
#[derive(Clone, Copy, Debug, PartialEq, Eq, Error)]
pub enum CertFault {
    /// The text has more than 16,777,216 bytes.
    #[error("the certificate is too long")]
    Long,
    /// The line of this number, counted from 1, is the first that is not a fact's text.
    #[error("line {line} of the certificate is not a fact")]
    NotAFact { line: u32 },
    /// Memory ran out.
    #[error("out of memory")]
    Memory,
}

impl From<AllocError> for CertFault {
    ghost use Rattle.std.specs.Prelude.{◌≡◌};
    ghost use Rattle.certificate.specs.declared.fault.CertFault.TheVariants.{Memory};

    ghost from_gives = { λ _ e. e ≡ Memory };

    fn from(_error: AllocError) -> CertFault {
        CertFault::Memory
    }
}
