//! Opens a day's shared tape, restores what its journal had, and gives each line its seat.
ghost use Rattle.std.specs.Prelude.{◌≡◌, ◌≤◌, [], IfOk, IfSome, List, None, length, map, vec_len};
ghost use Rattle.std.specs.Vec.{vec_capacity};
ghost use Rattle.line_ledger.specs.Days.{terms_of};
ghost use Rattle.line_ledger.specs.Ends.{IsOneEach, whos};
ghost use Rattle.line_ledger.specs.Seats.{SeatState, untold};
ghost use Rattle.live_feed.specs.Journals.{HasAllKept};
ghost use Rattle.live_feed.specs.Restorings.{Restores};

use crate::JournalFile;
use crate::account::LineAccount;
use crate::keeper::Keeper;
use crate::line_input::Reader;
use crate::line_slot::LineSlot;
use crate::live::end_day;
use crate::restoring::{JournalPast, restore};
use crate::seated::{SeatedLine, Waiting, seated_lines};
use feed_ends::Fault;
use line_ledger::{DayName, LineSeat, Prepared, SharedTape};
use std::alloc::Global;
use std::sync::{Arc, Wait};

/// Gives each line its seat. The vectors have room for the lines, and for their seats and accounts after them.
fn seat_lines<D: DayName>(
    seats: Vec<LineSeat<D>>,
    readers: Vec<Reader>,
    lines: Vec<SeatedLine<D>>,
    room: Vec<LineSeat<D>>,
    accounts: Vec<LineAccount>,
    slots: Vec<Arc<LineSlot>>,
) -> Waiting<D>
    requires one_each { IsOneEach D.terms.listing.participants seats.items }
    requires many { vec_len seats ≡ vec_len readers }
    requires lines { vec_len seats ≤ vec_capacity lines }
    requires room { vec_len seats ≤ vec_capacity room }
    requires accounts { vec_len seats ≤ vec_capacity accounts }
    requires no_lines { lines.items ≡ [] }
    requires no_room { room.items ≡ [] }
    requires no_accounts { accounts.items ≡ [] }
    // Whatever the lines do to their seats, there is one of each participant after it.
    ensures { (ended : List SeatState) → whos ended ≡ map (λ l. l.0.who) result.lines.items → IsOneEach D.terms.listing.participants ended }
{
    Waiting {
        lines: seated_lines(seats, readers, lines),
        room,
        accounts,
        slots,
    }
}

/// Restores the day from what its journal had, if it goes on, once the journal is kept: what is restored can be asked for at
/// once. After a fault the shared tape and the seats are spent.
fn restore_seats<D: DayName, R: Wait, J: JournalFile>(
    rt: &R,
    alloc: Global,
    keeper: &Option<Keeper<J>>,
    shared: SharedTape<D>,
    seats: Vec<LineSeat<D>>,
    past: Option<&JournalPast>,
) -> Result<(SharedTape<D>, Vec<LineSeat<D>>), Fault>
    requires each { IsOneEach D.terms.listing.participants seats.items }
    requires kept { HasAllKept keeper.now }
    ensures whos { IfOk result (λ opened. whos opened.1.items ≡ whos seats.items) }
    ensures cells { IfOk result (λ opened. opened.0 ≡ shared) }
    ensures restored { IfOk result (λ opened. IfSome past.entry (λ p. Restores p.now.session p.now.restored.digest p.now.restored.from
        p.now.restored.journal.items p.now.held shared seats.items opened.1.items)) }
    ensures fresh { IfOk result (λ opened. past.entry ≡ None → opened.1.items ≡ seats.items) }
{
    // For the proof alone: only clauses speak of it.
    let _ = keeper;
    let Some(past) = past else {
        return Ok((shared, seats));
    };
    let mut seats = seats;
    match restore(rt, alloc, &shared, &mut seats, past) {
        Ok(()) => Ok((shared, seats)),
        Err(fault) => {
            drop(end_day(shared, seats));
            Err(fault)
        }
    }
}

/// Opens the shared tape of what was prepared, with a seat for each participant, and restores what the day's journal had, if it
/// goes on.
fn open_seats<D: DayName, R: Wait, J: JournalFile>(
    rt: &R,
    alloc: Global,
    keeper: &Option<Keeper<J>>,
    prepared: Prepared,
    past: Option<&JournalPast>,
) -> Result<(SharedTape<D>, Vec<LineSeat<D>>), Fault>
    requires name { prepared.blank.name ≡ D.name }
    requires parts { prepared.blank.parts ≡ D.parts }
    requires terms { terms_of prepared.tape ≡ D.terms }
    requires kept { HasAllKept keeper.now }
    ensures each { IfOk result (λ opened. IsOneEach D.terms.listing.participants opened.1.items) }
    ensures restored { IfOk result (λ opened. IfSome past.entry (λ p. Restores p.now.session p.now.restored.digest p.now.restored.from
        p.now.restored.journal.items p.now.held opened.0 (map untold prepared.tape.listing.participants) opened.1.items)) }
    ensures fresh { IfOk result (λ opened. past.entry ≡ None → opened.1.items ≡ map untold prepared.tape.listing.participants) }
{
    match SharedTape::<D>::open(prepared) {
        Ok((shared, seats)) => restore_seats(rt, alloc, keeper, shared, seats, past),
        Err(_) => Err(Fault::Memory),
    }
}

/// Opens the shared tape of what was prepared, restores what its journal had, if the day goes on, and gives each line its seat.
/// The journal is kept before. The slots are for the lines in their order, or there are none.
pub(crate) fn open_lines<D: DayName, R: Wait, J: JournalFile>(
    rt: &R,
    alloc: Global,
    keeper: &Option<Keeper<J>>,
    prepared: Prepared,
    readers: Vec<Reader>,
    slots: Vec<Arc<LineSlot>>,
    past: Option<&JournalPast>,
) -> Result<(SharedTape<D>, Waiting<D>), Fault>
    requires name { prepared.blank.name ≡ D.name }
    requires parts { prepared.blank.parts ≡ D.parts }
    requires terms { terms_of prepared.tape ≡ D.terms }
    requires many { vec_len readers ≡ length D.terms.listing.participants }
    requires kept { HasAllKept keeper.now }
    // Whatever the lines do to their seats, there is one of each participant after it.
    ensures { IfOk result (λ opened. (seats : List SeatState) → whos seats ≡ map (λ l. l.0.who) opened.1.lines.items
        → IsOneEach D.terms.listing.participants seats) }
{
    let Ok(accounts) = Vec::with_capacity(alloc, readers.len()) else {
        drop(prepared);
        return Err(Fault::Memory);
    };
    let Ok(lines) = Vec::with_capacity(alloc, readers.len()) else {
        drop(prepared);
        return Err(Fault::Memory);
    };
    let Ok(room) = Vec::with_capacity(alloc, readers.len()) else {
        lines.destroy_empty();
        drop(prepared);
        return Err(Fault::Memory);
    };
    let (shared, seats) = match open_seats(rt, alloc, keeper, prepared, past) {
        Ok(opened) => opened,
        Err(fault) => {
            lines.destroy_empty();
            room.destroy_empty();
            return Err(fault);
        }
    };
    Ok((
        shared,
        seat_lines(seats, readers, lines, room, accounts, slots),
    ))
}
