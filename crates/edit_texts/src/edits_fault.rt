//! Why a text of edits is refused.

use clause_normal::{NormFault, NormKind};
use std::alloc::AllocError;
use thiserror::Error;

/// Why an edit is refused.
#[derive(Clone, Copy, Debug, PartialEq, Eq)]
pub enum EditKind {
    /// The clause that is to be added is refused.
    Norm(NormKind),
    /// The clause of the text is no edit; or there is no clause of its number, or no predicate of its name and arity.
    BadEdit,
}

/// Why the edits of a text are not done. A place counts bytes from 0.
#[derive(Clone, Copy, Debug, PartialEq, Eq, Error)]
pub enum EditsFault {
    /// An edit is refused, at this place.
    #[error("an edit is refused, at byte {at}")]
    Refused { kind: EditKind, at: u32 },
    /// Memory ran out.
    #[error("out of memory")]
    Memory,
}

impl From<NormFault> for EditsFault {
    ghost use Rattle.std.specs.Prelude.{◌≡◌};
    ghost use Rattle.edit_texts.specs.EditsFaults.{edits_fault};

    ghost from_gives = { λ fault e. e ≡ edits_fault fault };

    fn from(fault: NormFault) -> EditsFault {
        match fault {
            NormFault::Fault { kind, at } => EditsFault::Refused {
                kind: EditKind::Norm(kind),
                at,
            },
            NormFault::Memory => EditsFault::Memory,
        }
    }
}

impl From<AllocError> for EditsFault {
    ghost use Rattle.std.specs.Prelude.{◌≡◌};
    ghost use Rattle.edit_texts.specs.declared.edits_fault.EditsFault.TheVariants.{Memory};

    ghost from_gives = { λ _ e. e ≡ Memory };

    fn from(_error: AllocError) -> EditsFault {
        EditsFault::Memory
    }
}
