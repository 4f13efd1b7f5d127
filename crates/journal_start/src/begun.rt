//! Reads the header of a day's journal, if one was begun, and refuses any other journal.
ghost use Rattle.std.specs.Prelude.{◌≡◌, ◌≤◌, None, IfErr, IfOk, IfSome, length};
ghost use Rattle.journal_start.specs.Starts.{HasHeader, IsUnbegun, RefusesHeader, is_front};

use crate::{JournalRefusal, StartFault};
use day_journal::{JournalHeader, JournalHeaderFault, read_header};
use days::Day;
use std::alloc::Global;

/// What every journal begins with.
const MAGIC: &[u8] = b"tapejrnl";

/// Returns whether bytes are a front of what every journal begins with.
fn is_front(bytes: &[u8]) -> bool
    ensures { result ≡ is_front bytes.now }
{
    MAGIC.starts_with(bytes)
}

/// Returns the header of the journal of this day, or `None` if none was begun: there are no bytes, or they end within the
/// header, as a start that was cut off leaves them.
pub(crate) fn begun_header(
    alloc: Global,
    day: &Day,
    bytes: &[u8],
) -> Result<Option<JournalHeader>, StartFault>
    ensures none { IfOk result (λ header. header ≡ None → IsUnbegun bytes.now) }
    ensures some { IfOk result (λ header. IfSome header (λ h. HasHeader h day.now bytes.now)) }
    ensures within { IfOk result (λ header. IfSome header (λ h. h.len ≤ length bytes.now)) }
    ensures refused { IfErr result (λ fault. RefusesHeader fault day.now bytes.now) }
{
    if is_front(bytes) {
        return Ok(None);
    }
    match read_header(alloc, bytes) {
        Ok(header) => match header.day.other_term(day) {
            Some(term) => Err(StartFault::Refused(JournalRefusal::OtherDay(term))),
            None => Ok(Some(header)),
        },
        Err(JournalHeaderFault::Short) => Ok(None),
        Err(JournalHeaderFault::NoJournal) => Err(StartFault::Refused(JournalRefusal::NoJournal)),
        Err(JournalHeaderFault::OtherVersion) => Err(StartFault::Refused(
            JournalRefusal::OtherVersion,
        )),
        Err(JournalHeaderFault::Damaged) => Err(StartFault::Refused(JournalRefusal::HeaderDamaged)),
        Err(JournalHeaderFault::OutOfMemory) => Err(StartFault::OutOfMemory),
    }
}
