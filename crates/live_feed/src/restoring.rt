//! Restores a day that goes on: admits and publishes again what its journal has, before its lines run.
ghost use Rattle.std.specs.Prelude.{◌≡◌, ◌≢◌, ◌++◌, ◌<◌, [], All, Err, IfErr, IfSome, None, OnOk, Some, length, slice_get};
ghost use Rattle.line_ledger.specs.Cells.{shown};
ghost use Rattle.line_ledger.specs.Ends.{whos};
ghost use Rattle.feed_ends.specs.declared.fault.Fault.TheVariants.{Write as WriteFault};
ghost use Rattle.live_feed.specs.Restorings.{IsRestored, Restores, TellsEntries, TellsEntry};

use crate::Restored;
use crate::publishing::publish;
use crate::same_entries::ends_with;
use day_journal::{GroupReader, JournalEnd, Next};
use feed_ends::Fault;
use line_ledger::{DayName, LineRefusal, LineSeat, Published, SharedTape};
use std::alloc::Global;
use std::sync::Wait;
use tape_core::{Entry, Refusal};
use tape_frames::Source;
use tape_types::Participant;

/// What a journal had when the day began, and how it is read.
#[derive(Drop)]
pub(crate) struct JournalPast {
    /// Its bytes.
    pub(crate) restored: Restored,
    /// The session of the day.
    pub(crate) session: u64,
    /// How many entries it had.
    pub(crate) held: u32,
}

/// Returns the place of the participant's seat.
fn seat_of<D: DayName>(seats: &[LineSeat<D>], who: Participant) -> Option<usize>
    ensures some { IfSome result (λ at. (at < length seats.now) × (slice_get (whos seats.now) at ≡ Some who)) }
    ensures none { result ≡ None → All (λ s. s.who ≢ who) seats.now }
{
    for at in 0..seats.len() {
        if seats[at].participant() == who {
            return Some(at);
        }
    }
    None
}

/// The day's fault for a journal's message that is not admitted.
fn fault_of_refusal(refusal: LineRefusal) -> Fault
    ensures { result ≢ WriteFault }
{
    match refusal {
        LineRefusal::Refused(Refusal::OutOfMemory) => Fault::Memory,
        LineRefusal::Refused(_) | LineRefusal::Behind => Fault::Disagrees,
    }
}

/// Admits the message of a journal's entry by its participant's own seat. The tape gives it the number that it had.
fn admit_entry<D: DayName, R: Wait>(
    rt: &R,
    shared: &SharedTape<D>,
    seats: &mut Vec<LineSeat<D>>,
    entry: &Entry,
) -> Result<(), Fault>
    ensures whos { whos seats.new.items ≡ whos seats.old.items }
    ensures told { OnOk result (TellsEntry seats.old.items entry.now seats.new.items) }
{
    let Some(at) = seat_of(seats.as_slice(), entry.message.header().participant) else {
        return Err(Fault::Disagrees);
    };
    match shared.admit(rt, &mut seats[at], entry.message) {
        Ok(receipt) if receipt.number() == entry.number => Ok(()),
        Ok(_) => Err(Fault::Disagrees),
        Err(refusal) => Err(fault_of_refusal(refusal)),
    }
}

/// Admits the messages of these entries, one after the other.
fn admit_entries<D: DayName, R: Wait>(
    rt: &R,
    shared: &SharedTape<D>,
    seats: &mut Vec<LineSeat<D>>,
    entries: &[Entry],
) -> Result<(), Fault>
    ensures whos { whos seats.new.items ≡ whos seats.old.items }
    ensures told { OnOk result (TellsEntries seats.old.items entries.now seats.new.items) }
{
    for entry in entries {
        admit_entry(rt, shared, seats, entry)?;
    }
    Ok(())
}

/// Admits the messages of a group's entries and publishes what the tape makes of them, which is these entries.
fn restore_group<D: DayName, R: Wait>(
    rt: &R,
    shared: &SharedTape<D>,
    seats: &mut Vec<LineSeat<D>>,
    published: &mut Published<'_, D>,
    entries: &[Entry],
) -> Result<(), Fault>
    ensures whos { whos seats.new.items ≡ whos seats.old.items }
    ensures cells { published.new.names ≡ published.old.names }
    ensures entries { OnOk result (shown published.new.tokens ≡ shown published.old.tokens ++ entries.now) }
    ensures told { OnOk result (TellsEntries seats.old.items entries.now seats.new.items) }
{
    admit_entries(rt, shared, seats, entries)?;
    let before = published.published();
    publish(rt, shared, published, u32::MAX)?;
    let found = (published.published() - before) as usize;
    if found != entries.len() || !ends_with(published, before, entries) {
        return Err(Fault::Disagrees);
    }
    Ok(())
}

/// Restores all groups that the reader reads, to the journal's end. The vector is only room.
fn restore_groups<D: DayName, R: Wait>(
    rt: &R,
    shared: &SharedTape<D>,
    seats: &mut Vec<LineSeat<D>>,
    published: &mut Published<'_, D>,
    reader: &mut GroupReader<'_>,
    entries: &mut Vec<Entry>,
) -> Result<(), Fault>
    ensures whos { whos seats.new.items ≡ whos seats.old.items }
    ensures cells { published.new.names ≡ published.old.names }
    ensures groups { OnOk result (IsRestored reader.old seats.old.items (shown published.old.tokens) reader.new seats.new.items (shown published.new.tokens)) }
    ensures end { OnOk result (reader.new.rest ≡ []) }
{
    for _ in rt.forever() {
        match reader.next_group(entries) {
            Ok(Next::Group) => restore_group(rt, shared, seats, published, entries.as_slice())?,
            Ok(Next::End(JournalEnd::Whole)) => return Ok(()),
            Ok(Next::End(_)) => return Err(Fault::Disagrees),
            Err(_) => return Err(Fault::Memory),
        }
    }
    unreachable!()
}

/// Restores a day from what its journal had: each entry's message is admitted by its participant's own seat, and what the tape
/// makes of it is published, which is the journal's entry. Nothing is sent. Errors: `Disagrees` if the bytes are not the groups
/// of this session to their end, or hold other entries than this day makes of their messages, or not as many as were told;
/// `Memory`.
pub(crate) fn restore<D: DayName, R: Wait>(
    rt: &R,
    alloc: Global,
    shared: &SharedTape<D>,
    seats: &mut Vec<LineSeat<D>>,
    past: &JournalPast,
) -> Result<(), Fault>
    ensures whos { whos seats.new.items ≡ whos seats.old.items }
    ensures restored { OnOk result (Restores past.now.session past.now.restored.digest past.now.restored.from past.now.restored.journal.items past.now.held
        shared.now seats.old.items seats.new.items) }
{
    let journal = past.restored.journal.as_slice();
    if past.restored.from > journal.len() {
        return Err(Fault::Disagrees);
    }
    let mut reader = GroupReader::new(
        past.session,
        past.restored.digest,
        past.restored.from,
        journal,
    );
    let mut published = Published::new(shared);
    let mut entries = Vec::new(alloc);
    restore_groups(rt, shared, seats, &mut published, &mut reader, &mut entries)?;
    if reader.held() != past.held {
        return Err(Fault::Disagrees);
    }
    Ok(())
}
