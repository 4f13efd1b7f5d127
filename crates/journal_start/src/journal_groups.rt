//! Reads the groups of a journal to its end, and keeps how far the lines of its participants had come.
ghost use Rattle.std.specs.Prelude.{◌≤◌, IfErr, IfOk, drop, length};
ghost use Rattle.tape_types.specs.Ranges.{TAPE_MOST};
ghost use Rattle.day_journal.specs.Journals.{reader_at};
ghost use Rattle.journal_start.specs.Groups.{GivesGroups, HasGroups, RefusesGroups};

use crate::past_lines::{after_entries, new_lines};
use crate::{JournalRefusal, PastLine, StartFault};
use day_journal::{GroupReader, JournalEnd, JournalHeader, Next};
use std::alloc::Global;
use tape_core::Entry;

/// What a journal has behind its header.
#[derive(Drop)]
pub(crate) struct JournalGroups {
    /// The number of entries.
    pub(crate) held: u32,
    /// The digest of the last group, or the header's.
    pub(crate) digest: [u8; 32],
    /// How many of the journal's bytes are the header and whole groups. A group that was cut off may follow.
    pub(crate) whole: usize,
    /// How far the participants' lines had come.
    pub(crate) lines: Vec<PastLine>,
}

/// Reads on to the end, and returns how many bytes are whole there. `entries` is only room.
fn read_on(
    alloc: Global,
    len: usize,
    reader: &mut GroupReader<'_>,
    entries: &mut Vec<Entry>,
    lines: &mut Vec<PastLine>,
) -> Result<usize, StartFault>
    ensures given { IfOk result (λ whole. GivesGroups len whole reader.old lines.old.items reader.new lines.new.items) }
    ensures refused { IfErr result (λ fault. RefusesGroups fault reader.old) }
{
    for _ in 0..u64::MAX {
        match reader.next_group(entries)? {
            Next::Group => *lines = after_entries(alloc, lines, entries)?,
            Next::End(JournalEnd::Whole) => return Ok(len),
            Next::End(JournalEnd::Torn { from }) => return Ok(from),
            Next::End(JournalEnd::Damaged { first, count }) => {
                return Err(StartFault::Refused(JournalRefusal::Damaged { first, count }));
            }
        }
    }
    Err(StartFault::OutOfMemory)
}

/// Reads the groups of a journal behind its header, to its end.
pub(crate) fn read_groups(
    alloc: Global,
    header: &JournalHeader,
    bytes: &[u8],
) -> Result<JournalGroups, StartFault>
    requires { header.now.len ≤ length bytes.now }
    ensures given { IfOk result (λ had. HasGroups had header.now bytes.now) }
    ensures most { IfOk result (λ had. had.held ≤ TAPE_MOST) }
    ensures refused { IfErr result (λ fault. RefusesGroups fault (reader_at header.now.day.session 0 header.now.digest header.now.len (drop header.now.len bytes.now))) }
{
    let mut lines = new_lines(alloc, header.day.listing.participants().as_slice())?;
    let mut reader = GroupReader::new(header.day.session, header.digest, header.len, bytes);
    let mut entries = Vec::new(alloc);
    let whole = read_on(alloc, bytes.len(), &mut reader, &mut entries, &mut lines)?;
    Ok(JournalGroups {
        held: reader.held(),
        digest: reader.digest(),
        whole,
        lines,
    })
}
