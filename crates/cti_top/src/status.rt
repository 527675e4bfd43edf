//! The statuses of the top call.

ghost use Rattle.std.specs.Prelude.{◌≡◌};
ghost use Rattle.cti_top.specs.Status.{number_of};

use std::alloc::AllocError;

/// How a call of `command` ended.
#[derive(Clone, Copy, Debug, PartialEq, Eq)]
pub enum Status {
    /// The answer was written.
    Done,
    /// The certificate is not valid, or no loop was found; the line that says so was written.
    No,
    /// The words are not a command; the usage was written.
    Usage,
    /// The program, the certificate, the query or an edit was refused; the line that says why was written.
    Refused,
    /// A file could not be loaded; nothing was written.
    FileFault,
    /// The sink failed; a proper prefix of the answer was written.
    OutFault,
    /// Memory ran out, or a limit that counts as that was met; nothing was written.
    Memory,
    /// The query has more nodes than were looked at: the answers among those were written, or the line that says that
    /// no loop is among the first ones.
    Stopped,
    /// A value in an integer test was too large, where the search ended; the answers before it were written. It comes
    /// only where a program or a query has integer tests.
    Overflow,
}

impl Status {
    /// The number with which the process ends, from 0 to 8.
    pub fn number(self) -> u8
        ensures { result ≡ number_of self }
    {
        match self {
            Status::Done => 0,
            Status::No => 1,
            Status::Usage => 2,
            Status::Refused => 3,
            Status::FileFault => 4,
            Status::OutFault => 5,
            Status::Memory => 6,
            Status::Stopped => 7,
            Status::Overflow => 8,
        }
    }
}

impl From<AllocError> for Status {
    ghost use Rattle.cti_top.specs.declared.status.Status.TheVariants.{Memory};

    ghost from_gives = { λ _ s. s ≡ Memory };

    fn from(_error: AllocError) -> Status {
        Status::Memory
    }
}
