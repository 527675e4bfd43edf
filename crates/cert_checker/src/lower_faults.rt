//! Faults that the crates below find, as faults of a certificate.

ghost use Rattle.std.specs.Prelude.{◌≡◌};
ghost use Rattle.cert_checker.specs.Fault.{reason_of};
ghost use Rattle.cert_checker.specs.ModeFaults.{fault_of, mode_reason};
ghost use Rattle.cert_checker.specs.StructureFaults.{structure_fault, structure_reason};

use crate::fault::Fault;
use crate::reason::Reason;
use cert_modes::{ModeFault, ModeReason};
use cert_structure::StructureReason;
use number_tests::Flaw;

impl Reason {
    /// The reason for a flaw: the given one where the numbers fail, and `Wide` where one does not fit.
    pub(crate) fn of(flaw: Flaw, failing: Reason) -> Reason
        ensures { result ≡ reason_of flaw failing }
    {
        match flaw {
            Flaw::Fails => failing,
            Flaw::Wide => Reason::Wide,
        }
    }
}

/// What is wrong with the structure, as a reason of a certificate.
fn structure_reason(reason: StructureReason) -> Reason
    ensures { result ≡ structure_reason reason }
{
    match reason {
        StructureReason::Version => Reason::Version,
        StructureReason::Missing => Reason::Missing,
        StructureReason::Extra => Reason::Extra,
        StructureReason::Shape => Reason::Shape,
    }
}

/// The reason why modes fail, as one of a certificate.
fn mode_reason(reason: ModeReason) -> Reason
    ensures { result ≡ mode_reason reason }
{
    match reason {
        ModeReason::Ground => Reason::Ground,
        ModeReason::Precondition => Reason::Precondition,
        ModeReason::Mode => Reason::Mode,
    }
}

impl Fault {
    /// The fault of the structure, as one of a certificate.
    pub(crate) fn of_structure(line: u64, reason: StructureReason) -> Fault
        ensures { result ≡ structure_fault line reason }
    {
        Fault {
            line,
            reason: structure_reason(reason),
        }
    }

    /// The fault of modes, as one of a certificate.
    pub(crate) fn of_modes(fault: ModeFault) -> Fault
        ensures { result ≡ fault_of fault }
    {
        Fault {
            line: fault.line,
            reason: mode_reason(fault.reason),
        }
    }
}
