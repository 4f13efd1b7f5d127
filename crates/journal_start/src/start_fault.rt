//! The errors of starting a journal.
ghost use Rattle.std.specs.Prelude.{◌≡◌};
ghost use Rattle.journal_start.specs.Starts.{IsUnread, fault_of_kind};

use crate::JournalRefusal;
use std::alloc::AllocError;
use std::io::ErrorKind;

/// Why a journal was not started. It may have other bytes than before only after `Unwritten`.
#[derive(Clone, Copy, Debug, PartialEq, Eq)]
pub enum StartFault {
    /// It is not continued.
    Refused(JournalRefusal),
    /// It can't be read.
    Unread(ErrorKind),
    /// It can't be written, cut or kept.
    Unwritten,
    /// Memory ran out.
    OutOfMemory,
}

impl From<AllocError> for StartFault {
    ghost use Rattle.std.specs.Prelude.{◌≡◌};
    ghost use Rattle.journal_start.specs.declared.start_fault.StartFault.TheVariants.{OutOfMemory};

    ghost from_gives = { λ _ fault. fault ≡ OutOfMemory };

    fn from(_refused: AllocError) -> StartFault {
        StartFault::OutOfMemory
    }
}

/// Returns the fault of a read that failed with an error of this kind.
pub(crate) fn fault_of_reading(kind: ErrorKind) -> StartFault
    ensures kind { result ≡ fault_of_kind kind }
    ensures unread { IsUnread result }
{
    match kind {
        ErrorKind::OutOfMemory => StartFault::OutOfMemory,
        _ => StartFault::Unread(kind),
    }
}
