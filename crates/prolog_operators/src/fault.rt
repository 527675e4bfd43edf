//! Why an operator is not set.

use std::alloc::AllocError;
use thiserror::Error;

/// Why an operator is not set.
#[derive(Clone, Copy, Debug, PartialEq, Eq, Error)]
pub enum OpFault {
    /// The priority is below 0 or above 1200.
    #[error("an operator's priority is from 0 to 1200")]
    BadPriority,
    /// The name is `,` or `|` or `[]` or `{}`.
    #[error("this name is no operator")]
    BadName,
    /// Memory ran out.
    #[error("out of memory")]
    Memory,
}

impl From<AllocError> for OpFault {
    ghost use Rattle.std.specs.Prelude.{◌≡◌};
    ghost use Rattle.prolog_operators.specs.declared.fault.OpFault.TheVariants.{Memory};

    ghost from_gives = { λ _ e. e ≡ Memory };

    fn from(_error: AllocError) -> OpFault {
        OpFault::Memory
    }
}
