//! A clause that is to be added, and why it is not.

use clause_normal::{NormFault, NormKind};
use prolog_terms::ReadClause;
use std::alloc::AllocError;
use thiserror::Error;

/// A clause that is to be added.
#[derive(Drop)]
pub struct EditClause {
    pub clause: ReadClause,
}

/// Why a clause is not added. A place counts bytes from 0 in the text that the clause was read from.
#[derive(Clone, Copy, Debug, PartialEq, Eq, Error)]
pub enum EditFault {
    /// The clause is refused, at this place.
    #[error("the clause is refused, at byte {at}")]
    Norm { kind: NormKind, at: u32 },
    /// Memory ran out.
    #[error("out of memory")]
    Memory,
}

impl From<NormFault> for EditFault {
    ghost use Rattle.std.specs.Prelude.{◌≡◌};
    ghost use Rattle.cti_session.specs.Faults.{edit_fault};

    ghost from_gives = { λ fault e. e ≡ edit_fault fault };

    fn from(fault: NormFault) -> EditFault {
        match fault {
            NormFault::Fault { kind, at } => EditFault::Norm { kind, at },
            NormFault::Memory => EditFault::Memory,
        }
    }
}

impl From<AllocError> for EditFault {
    ghost use Rattle.std.specs.Prelude.{◌≡◌};
    ghost use Rattle.cti_session.specs.declared.edit.EditFault.TheVariants.{Memory};

    ghost from_gives = { λ _ e. e ≡ Memory };

    fn from(_error: AllocError) -> EditFault {
        EditFault::Memory
    }
}
