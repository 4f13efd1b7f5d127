//! The reasons why a journal has no day.
ghost use Rattle.journal_days.specs.Days.{IsEntryFault, IsHeaderFault};

use day_journal::{JournalHeaderFault, ReplayFault};
use sale_matrix::Matrix;
use tape_core::Refusal;

/// Why a journal has no day: the first reason from its front. It prints as a line without its end.
#[derive(Clone, Copy, Debug, PartialEq, Eq)]
pub enum JournalFault {
    /// It does not begin with the header of a journal.
    Header(JournalHeaderFault),
    /// It has this matrix, and another one was asked for.
    OtherMatrix(Matrix),
    /// An entry is not the tape's next one: it is refused, or has other figures than the tape's.
    Entry(ReplayFault),
    /// After its whole groups, whose entries are all the tape's, come bytes that are neither the next group nor the front of
    /// one.
    Damaged {
        /// The number of the first entry that the damaged group should have.
        first: u32,
        /// How many entries it should have by its own end; `None` if the lengths of its packets do not lead there.
        count: Option<u32>,
    },
    /// Memory ran out.
    OutOfMemory,
}

impl From<JournalHeaderFault> for JournalFault {
    ghost from_gives = { λ fault journal. IsHeaderFault fault journal };

    fn from(fault: JournalHeaderFault) -> JournalFault {
        match fault {
            JournalHeaderFault::OutOfMemory => JournalFault::OutOfMemory,
            fault => JournalFault::Header(fault),
        }
    }
}

impl From<ReplayFault> for JournalFault {
    ghost from_gives = { λ fault journal. IsEntryFault fault journal };

    fn from(fault: ReplayFault) -> JournalFault {
        match fault {
            ReplayFault::Refused {
                refusal: Refusal::OutOfMemory,
                ..
            } => JournalFault::OutOfMemory,
            fault => JournalFault::Entry(fault),
        }
    }
}
