//! Why rows were not eliminated or solved.

ghost use Rattle.std.specs.Prelude.{◌≡◌};

use std::alloc::AllocError;

/// Why an elimination or a solving gave no answer.
#[derive(Clone, Copy, PartialEq, Eq, Debug)]
pub enum ElimFault {
    /// A step is blown: a number in it does not fit (`wide`), or it leaves more than 4,096 rows.
    ///
    /// Step 0 is the rows' own numbers, and the steps after it are counted from 1, one for each variable.
    Blown { step: u32, wide: bool },
    /// Memory was refused.
    Memory,
}

/// Why a step was not taken.
#[derive(Clone, Copy, PartialEq, Eq, Debug)]
pub enum StepFault {
    /// A number that it forms does not fit.
    Wide,
    /// More than 4,096 rows are left, and the numbers fit. A brief step does not look at all of them.
    Many,
    /// Memory was refused.
    Memory,
}

impl StepFault {
    ghost use Rattle.fourier.specs.Saying.{fault_at};

    /// The fault of an elimination in which the step has this number.
    pub fn at(self, step: u32) -> ElimFault
        ensures { result ≡ fault_at step self }
    {
        match self {
            StepFault::Wide => ElimFault::Blown { step, wide: true },
            StepFault::Many => ElimFault::Blown { step, wide: false },
            StepFault::Memory => ElimFault::Memory,
        }
    }
}

impl From<AllocError> for ElimFault {
    ghost use Rattle.fourier.specs.declared.fault.ElimFault.TheVariants.{Memory};

    ghost from_gives = { λ _ fault. fault ≡ Memory };

    fn from(_: AllocError) -> ElimFault {
        ElimFault::Memory
    }
}

/// Why values were not chosen.
#[derive(Clone, Copy, PartialEq, Eq, Debug)]
pub enum ValueFault {
    /// A number that they need does not fit.
    Wide,
    /// Memory was refused.
    Memory,
}

impl From<AllocError> for ValueFault {
    ghost use Rattle.fourier.specs.declared.fault.ValueFault.TheVariants.{Memory};

    ghost from_gives = { λ _ fault. fault ≡ Memory };

    fn from(_: AllocError) -> ValueFault {
        ValueFault::Memory
    }
}
