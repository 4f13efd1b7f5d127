//! Checks whether a journal is recorded as its tape makes it.
ghost use Rattle.std.specs.Prelude.{◌≡◌, IfErr, IfOk, length};
ghost use Rattle.journal_days.specs.Verdicts.{IsVerdict, IsVerifyFault, standing_verdict};

use crate::{JournalDay, JournalFault, read_day};
use day_journal::ReplayFault;
use sale_matrix::Matrix;
use std::alloc::Global;

/// The verdict on a journal. It prints as a line without its end.
#[derive(Clone, Copy, Debug, PartialEq, Eq)]
pub enum JournalVerdict {
    /// Each digest is that of its bytes, and each entry is the one that the tape makes of the messages up to it.
    Recorded {
        /// How many entries there are.
        count: usize,
    },
    /// The same holds of its whole groups, and after them a group is cut off, as after a write that was cut. That is no
    /// difference.
    CutOff {
        /// How many entries the whole groups have.
        count: usize,
        /// How many bytes they and the header have.
        from: usize,
    },
    /// An entry is not the tape's next one, and this is the first.
    Differs(ReplayFault),
    /// The entries of its whole groups are the tape's, and then come bytes that are neither the next group nor the front of
    /// one.
    Damaged {
        /// The number of the first entry that the damaged group should have.
        first: u32,
        /// How many entries it should have by its own end; `None` if the lengths of its packets do not lead there.
        count: Option<u32>,
    },
}

/// The verdict on a journal that has a day.
fn verdict_on(day: &JournalDay) -> JournalVerdict
    ensures { result ≡ standing_verdict (length day.now.tape.entries) day.now.torn }
{
    let count = day.tape.entries().len();
    match day.torn {
        None => JournalVerdict::Recorded { count },
        Some(from) => JournalVerdict::CutOff { count, from },
    }
}

/// Reads the bytes of a journal, replays it, and compares each number, figure and digest with its own: returns whether all are
/// as recorded, or the first entry or group that is not. A last group that is cut off is left out, and named.
///
/// An error means that the journal has no header or another matrix than the one that is asked for, or that memory ran out.
pub fn verify_journal(
    alloc: Global,
    asked: Option<Matrix>,
    bytes: &[u8],
) -> Result<JournalVerdict, JournalFault>
    ensures verdict { IfOk result (IsVerdict asked bytes.now) }
    ensures fault { IfErr result (IsVerifyFault asked bytes.now) }
{
    match read_day(alloc, asked, bytes) {
        Ok(day) => Ok(verdict_on(&day)),
        Err(JournalFault::Entry(fault)) => Ok(JournalVerdict::Differs(fault)),
        Err(JournalFault::Damaged { first, count }) => {
            Ok(JournalVerdict::Damaged { first, count })
        }
        Err(fault) => Err(fault),
    }
}
