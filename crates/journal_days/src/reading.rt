//! Reads a journal and replays its groups on a tape.
ghost use Rattle.std.specs.Prelude.{◌≡◌, IfErr, IfOk, OnOk};
ghost use Rattle.day_journal.specs.Journals.{groups_at};
ghost use Rattle.day_journal.specs.Replays.{with_entries};
ghost use Rattle.journal_days.specs.Days.{EndsDay, IsDay, IsFault, IsMatrixFault, StopsEntries, StopsNext, TakesNext, begins_journal, entries_of};

use crate::{JournalDay, JournalFault};
use day_journal::{GroupReader, JournalEnd, Next, read_header, replay_entries};
use days::Day;
use sale_matrix::Matrix;
use std::alloc::Global;
use tape_core::{Entry, IndexedTape, Tape};

/// The first bytes of every journal.
const FRONT: [u8; 8] = *b"tapejrnl";

/// Whether the bytes begin as every journal does, and no table.
#[tactic(auto, using(std::proofs::lemmas::List::take_min))]
pub fn is_journal(bytes: &[u8]) -> bool
    ensures begins { result ≡ begins_journal bytes.now }
{
    let front = &bytes[..bytes.len().min(FRONT.len())];
    front == FRONT.as_slice()
}

/// The fault of a journal with this matrix, if another one was asked for.
fn matrix_fault(asked: Option<Matrix>, matrix: Matrix) -> Option<JournalFault>
    ensures { IsMatrixFault asked matrix result }
{
    match asked {
        Some(asked) if asked != matrix => Some(JournalFault::OtherMatrix(matrix)),
        Some(_) | None => None,
    }
}

/// Replays the next group on a tape. At the journal's end there is none, and it returns the end.
fn replay_next(
    groups: &mut GroupReader<'_>,
    entries: &mut Vec<Entry>,
    tape: &mut IndexedTape,
) -> Result<Option<JournalEnd>, JournalFault>
    ensures next { IfOk result (λ end. TakesNext end groups.old tape.old groups.new tape.new) }
    ensures stops { IfErr result (λ fault. StopsNext fault groups.old tape.old) }
{
    match groups.next_group(entries) {
        Ok(Next::Group) => {
            let replayed = replay_entries(tape, entries.as_slice());
            // What a tape holds is legal, wherever the replay stopped.
            let _legal = tape.entries();
            replayed?;
            Ok(None)
        }
        Ok(Next::End(end)) => Ok(Some(end)),
        Err(_) => Err(JournalFault::OutOfMemory),
    }
}

/// Replays all groups, of which there must be fewer than `turns`, on a tape, and returns the journal's end.
fn replay_groups(
    alloc: Global,
    groups: &mut GroupReader<'_>,
    turns: usize,
    tape: &mut IndexedTape,
) -> Result<JournalEnd, JournalFault>
    ensures end { IfOk result (λ end. (groups_at turns groups.old).1 ≡ end) }
    ensures tape { OnOk result (tape.new ≡ with_entries tape.old (entries_of (groups_at turns groups.old))) }
    ensures stops { IfErr result (λ fault. StopsEntries fault tape.old (entries_of (groups_at turns groups.old))) }
{
    let mut entries = Vec::new(alloc);
    for turn in 0..turns {
        if let Some(end) = replay_next(groups, &mut entries, tape)? {
            return Ok(end);
        }
    }
    // Each group has some bytes, so the end comes first; no clause says so.
    Err(JournalFault::OutOfMemory)
}

/// Returns the day of a tape that has all entries of a journal with this end.
fn day_of(tape: IndexedTape, end: JournalEnd) -> Result<JournalDay, JournalFault>
    ensures ends { EndsDay end tape result }
{
    let _legal = tape.entries();
    match end {
        JournalEnd::Whole => Ok(JournalDay { tape, torn: None }),
        JournalEnd::Torn { from } => Ok(JournalDay {
            tape,
            torn: Some(from),
        }),
        JournalEnd::Damaged { first, count } => Err(JournalFault::Damaged { first, count }),
    }
}

/// Reads the bytes of a journal, replays the entries of its whole groups on a tape with the listing, the matrix and the limit
/// of its header, and compares each with the one that the tape makes of its message. A last group that is cut off is left out.
///
/// If there is no such day, the fault is the first reason from the journal's front. If a matrix is asked for, it must be the
/// header's.
pub fn read_day(
    alloc: Global,
    asked: Option<Matrix>,
    bytes: &[u8],
) -> Result<JournalDay, JournalFault>
    ensures day { IfOk result (IsDay asked bytes.now) }
    ensures fault { IfErr result (IsFault asked bytes.now) }
{
    let header = read_header(alloc, bytes)?;
    if let Some(fault) = matrix_fault(asked, header.day.matrix) {
        return Err(fault);
    }
    let mut groups = GroupReader::new(header.day.session, header.digest, header.len, bytes);
    let turns = bytes.len() - header.len + 1;
    let Day {
        listing,
        matrix,
        limit,
        session: _,
    } = header.day;
    let Ok(mut tape) = Tape::new(alloc, listing, limit.value(), matrix) else {
        // The limit is one that a tape may have.
        return Err(JournalFault::OutOfMemory);
    };
    let end = replay_groups(alloc, &mut groups, turns, &mut tape)?;
    day_of(tape, end)
}
