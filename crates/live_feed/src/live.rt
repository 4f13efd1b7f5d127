//! Runs a live day: accepts the participants' lines, sends the tape that they make, and writes its report.
ghost use Rattle.std.specs.Prelude.{◌≡◌, ◌≢◌, ◌⊎◌, ◌≤◌, IfErr, IfOk, None, OnOk, Some, length, true, vec_len};
ghost use Rattle.std.specs.Io.KnownBytes.{Appends};
ghost use Rattle.tape_core.specs.Tape.{IsLegal};
ghost use Rattle.day_report.specs.ReportText.{report_text};
ghost use Rattle.day_report.specs.Rows.{report_rows};
ghost use Rattle.line_ledger.specs.Cells.{FirstTokens, HaveAll, shown};
ghost use Rattle.line_ledger.specs.Days.{terms_of};
ghost use Rattle.line_ledger.specs.Ends.{IsOneEach};
ghost use Rattle.live_feed.specs.Faults.{NoneBefore};
ghost use Rattle.feed_ends.specs.Reports.{WritesItsReport, WritesOneReport};
ghost use Rattle.feed_ends.specs.declared.fault.Fault.TheVariants.{Disagrees, Write as WriteFault};

use crate::bell::Bell;
use crate::feed::Feed;
use crate::keeper::Keeper;
use crate::line_input::Reader;
use crate::opening::open_lines;
use crate::running::{Joined, run_together};
use crate::seated::Ran;
use crate::sender::room_for_a_packet;
use crate::starting::{accept_all, prepare_day};
use crate::{LiveSockets, Loss, MemoryJournal};
use day_terms::LiveTerms;
use days::Day;
use feed_ends::{Fault, write_day};
use line_ledger::{Day as EndedDay, DayName, EndFault, LineSeat, Prepared, SharedTape, Sighting};
use sale_matrix::Matrix;
use std::alloc::Global;
use std::io::Write;
use std::marker::Brand;
use std::net::{TcpListener, TcpStream};
use std::os::fd::OwnedFd;
use std::rt::Clock;
use std::sync::Wait;
use std::thread::Threads;
use tape_types::{Listing, TapeNumber, can_start};

/// Ends the day with a seat of each participant.
pub(crate) fn end_day<D: DayName>(
    shared: SharedTape<D>,
    seats: Vec<LineSeat<D>>,
) -> Result<EndedDay, Fault>
    requires { IsOneEach D.terms.listing.participants seats.items }
    ensures legal { IfOk result (λ day. IsLegal day.tape) }
    ensures listed { IfOk result (λ day. day.tape.listing ≡ D.terms.listing) }
    ensures by_matrix { IfOk result (λ day. day.tape.matrix ≡ D.terms.matrix) }
    ensures within { IfOk result (λ day. length day.tape.entries ≤ D.terms.limit) }
    ensures cells { IfOk result (λ day. day.names ≡ shared) }
    ensures fault { IfErr result (λ fault. fault ≡ Disagrees) }
{
    match shared.end(seats) {
        Ok(day) => Ok(day),
        Err(EndFault::Disagrees(disagreement)) => {
            drop(disagreement);
            Err(Fault::Disagrees)
        }
        Err(EndFault::MissingSeat(_unended)) => unreachable!(),
    }
}

/// Whether the day has what was seen in each of the first `many` cells.
fn confirms_all(day: &EndedDay, tokens: &Vec<Sighting>, many: u32) -> bool
    requires cells { FirstTokens day.now.names tokens.now.items }
    requires many { length tokens.now.items ≡ many }
    ensures { result ≡ true → HaveAll day.now.tape.entries tokens.now.items }
{
    for at in 0..many {
        if day.confirm_seen(at + 1, &tokens[at as usize]).is_err() {
            return false;
        }
    }
    true
}

/// Whether the day is what was sent of it: it has as many entries as the end told, the sender had a token of each, and each of
/// these is on its tape. A cell is set once, so its token stands for whatever was sent or served of it.
fn is_as_sent(day: &EndedDay, tokens: &Vec<Sighting>, number: u32) -> bool
    requires { FirstTokens day.now.names tokens.now.items }
    ensures number { result ≡ true → (length tokens.now.items ≡ number) × (length day.now.tape.entries ≡ number) }
    ensures tokens { result ≡ true → HaveAll day.now.tape.entries tokens.now.items }
{
    tokens.len() == number as usize
        && day.tape().entries().len() == number as usize
        && confirms_all(day, tokens, number)
}

/// A day that has ended, with what was seen of each entry that the sender found published and sent. These are the entries of
/// the day, in order.
#[derive(Drop)]
pub(crate) struct SentDay {
    day: EndedDay,
    seen: Vec<Sighting>,
    ghost sent: { shown seen.items ≡ day.tape.entries },
}

/// Ends the day that was joined. Returns the day, whose entries are those that were sent, or the fault of the least status that
/// was met.
pub(crate) fn finish_day<D: DayName>(
    shared: SharedTape<D>,
    joined: Joined<D>,
) -> Result<SentDay, Fault>
    requires seats { IsOneEach D.terms.listing.participants joined.ran.seats.items }
    requires tokens { FirstTokens shared joined.sent.tokens.items }
    // With `least` and `met`, the fault that is returned is the least of all that were met.
    ensures none { IfOk result (λ _. (joined.served.fault ≡ None) × (joined.sent.fault ≡ None) × (joined.ran.fault ≡ None)) }
    ensures least { IfErr result (λ fault. NoneBefore fault joined.served.fault × NoneBefore fault joined.sent.fault
        × NoneBefore fault joined.ran.fault) }
    ensures met { IfErr result (λ fault. (joined.served.fault ≡ Some fault) ⊎ (joined.sent.fault ≡ Some fault)
        ⊎ (joined.ran.fault ≡ Some fault) ⊎ (fault ≡ Disagrees)) }
    ensures legal { IfOk result (λ ended. IsLegal ended.day.tape) }
    ensures listed { IfOk result (λ ended. ended.day.tape.listing ≡ D.terms.listing) }
    ensures by_matrix { IfOk result (λ ended. ended.day.tape.matrix ≡ D.terms.matrix) }
    ensures within { IfOk result (λ ended. length ended.day.tape.entries ≤ D.terms.limit) }
    ensures number { IfOk result (λ ended. length ended.day.tape.entries ≡ joined.sent.number) }
    ensures seen { IfOk result (λ ended. ended.seen ≡ joined.sent.tokens) }
{
    let Joined {
        ran: Ran {
            seats,
            fault,
            accounts,
        },
        sent,
        served,
    } = joined;
    drop(accounts);
    let ended = end_day(shared, seats);
    let at_the_sides = Fault::least(served.into_fault(), sent.fault);
    if let Some(fault) = Fault::least(at_the_sides, fault) {
        drop(ended);
        return Err(fault);
    }
    let day = ended?;
    if !is_as_sent(&day, &sent.tokens, sent.number) {
        drop(day);
        return Err(Fault::Disagrees);
    }
    Ok(SentDay {
        day,
        seen: sent.tokens,
    })
}

/// Runs the day of what was prepared, under its name, and ends it. Packets are written to `text`.
fn run_named<D: DayName + Send + Sync, R: Threads + Wait + Clock + Sync, L: Loss + Sync>(
    rt: &R,
    feed: &Feed<'_, L>,
    prepared: Prepared,
    readers: Vec<Reader>,
    text: &mut Vec<u8>,
) -> Result<SentDay, Fault>
    requires name { prepared.blank.name ≡ D.name }
    requires parts { prepared.blank.parts ≡ D.parts }
    requires terms { terms_of prepared.tape ≡ D.terms }
    requires many { vec_len readers ≡ length D.terms.listing.participants }
    ensures legal { IfOk result (λ ended. IsLegal ended.day.tape) }
    ensures listed { IfOk result (λ ended. ended.day.tape.listing ≡ D.terms.listing) }
    ensures by_matrix { IfOk result (λ ended. ended.day.tape.matrix ≡ D.terms.matrix) }
    ensures within { IfOk result (λ ended. length ended.day.tape.entries ≤ D.terms.limit) }
{
    let slots = Vec::new(feed.alloc);
    let none = None::<Keeper<MemoryJournal>>;
    let opened = open_lines::<D, R, MemoryJournal>(
        rt, feed.alloc, &none, prepared, readers, slots, None,
    );
    let (shared, waiting) = opened?;
    let joined = run_together(rt, feed, &shared, waiting, text);
    finish_day(shared, joined)
}

/// Runs the day of what was prepared. Packets are written to `text`.
fn run_day<R: Threads + Wait + Clock + Sync, L: Loss + Sync>(
    rt: &R,
    feed: &Feed<'_, L>,
    prepared: Prepared,
    readers: Vec<Reader>,
    text: &mut Vec<u8>,
) -> Result<SentDay, Fault>
    requires { vec_len readers ≡ length prepared.tape.listing.participants }
    ensures legal { IfOk result (λ ended. IsLegal ended.day.tape) }
    ensures listed { IfOk result (λ ended. ended.day.tape.listing ≡ prepared.tape.listing) }
    ensures by_matrix { IfOk result (λ ended. ended.day.tape.matrix ≡ prepared.tape.matrix) }
    ensures within { IfOk result (λ ended. length ended.day.tape.entries ≤ prepared.tape.limit) }
{
    run_named::<Brand, R, L>(rt, feed, prepared, readers, text)
}

/// Waits for the lines. Returns `Worker` if no thread can be started for them then.
fn readers_of<R: Threads>(
    rt: &R,
    alloc: Global,
    lines: Vec<TcpListener>,
) -> Result<Vec<Reader>, Fault>
    ensures { IfOk result (λ readers. vec_len readers ≡ vec_len lines) }
{
    let readers = accept_all(alloc, lines)?;
    if !can_start(rt) {
        return Err(Fault::Worker);
    }
    Ok(readers)
}

/// Prepares a day of these terms, waits for its lines and runs it.
fn hold_day<R: Threads + Wait + Clock + Sync, L: Loss + Sync>(
    rt: &R,
    feed: &Feed<'_, L>,
    terms: LiveTerms,
    lines: Vec<TcpListener>,
) -> Result<SentDay, Fault>
    ensures legal { IfOk result (λ ended. IsLegal ended.day.tape) }
    ensures listed { IfOk result (λ ended. ended.day.tape.listing ≡ terms.day.listing) }
    ensures by_matrix { IfOk result (λ ended. ended.day.tape.matrix ≡ terms.day.matrix) }
    ensures within { IfOk result (λ ended. length ended.day.tape.entries ≤ terms.day.limit) }
{
    if lines.len() != terms.day.listing.participants().as_slice().len() {
        return Err(Fault::Read);
    }
    let mut text = room_for_a_packet(feed.alloc)?;
    let prepared = prepare_day(feed.alloc, terms.day)?;
    let readers = match readers_of(rt, feed.alloc, lines) {
        Ok(readers) => readers,
        Err(fault) => {
            drop(prepared);
            return Err(fault);
        }
    };
    run_day(rt, feed, prepared, readers, &mut text)
}

/// Runs the day and writes its report, which is that of the day that is returned and whose entries were sent.
fn live<R: Threads + Wait + Clock + Sync, L: Loss + Sync, W: Write>(
    rt: &R,
    feed: &Feed<'_, L>,
    terms: LiveTerms,
    lines: Vec<TcpListener>,
    writer: &mut W,
) -> Result<SentDay, Fault>
    ensures report { OnOk result (WritesOneReport (W.contents writer.old) (W.contents writer.new)) }
    ensures listed { OnOk result (WritesItsReport terms.day.listing terms.day.matrix terms.day.limit (W.contents writer.old) (W.contents writer.new)) }
    ensures sent { IfOk result (λ ended. Appends (W.contents writer.old) (W.contents writer.new) (report_text (report_rows ended.day.tape))) }
    ensures unwritten { IfErr result (λ fault. fault ≢ WriteFault → writer.new ≡ writer.old) }
{
    let ended = hold_day(rt, feed, terms, lines)?;
    match write_day(rt, feed.alloc, ended.day.tape(), writer) {
        Ok(()) => Ok(ended),
        Err(fault) => {
            drop(ended);
            Err(fault)
        }
    }
}

/// Returns a handle by which a listener can be shut down, which its own type can't do.
pub(crate) fn closing_of(listener: &TcpListener) -> Result<TcpStream, Fault> {
    let handle = listener.try_clone().map_err(|_| Fault::Read)?;
    Ok(TcpStream::from(OwnedFd::from(handle)))
}

/// Runs a day as `live_over` does. Returns `Ok` for its status 0, and else the fault of its status.
pub fn run_live<R: Threads + Wait + Clock + Sync, L: Loss + Sync, W: Write>(
    rt: &R,
    alloc: Global,
    terms: LiveTerms,
    sockets: LiveSockets,
    loss: &L,
    writer: &mut W,
) -> Result<(), Fault>
    ensures report { OnOk result (WritesOneReport (W.contents writer.old) (W.contents writer.new)) }
    ensures listed { OnOk result (WritesItsReport terms.day.listing terms.day.matrix terms.day.limit (W.contents writer.old) (W.contents writer.new)) }
    ensures unwritten { IfErr result (λ fault. fault ≢ WriteFault → writer.new ≡ writer.old) }
{
    let LiveSockets {
        lines,
        retransmission,
        sender,
        a,
        b,
    } = sockets;
    let closing = closing_of(&retransmission)?;
    let bell = Bell::new();
    let feed = Feed {
        sender: &sender,
        retransmission: &retransmission,
        closing: &closing,
        a: &a,
        b: &b,
        loss,
        bell: &bell,
        session: terms.day.session,
        serves: terms.serves,
        alloc,
    };
    let ended = live(rt, &feed, terms, lines, writer)?;
    drop(ended);
    Ok(())
}

/// Returns the status of a day whose limit is out of range: 3 if there is not one listener for each participant, otherwise 7.
fn status_without_limit(listing: &Listing, sockets: &LiveSockets) -> u8
    ensures { (result ≡ 3) ⊎ (result ≡ 7) }
{
    if sockets.lines.len() == listing.participants().as_slice().len() {
        7
    } else {
        3
    }
}

/// Runs a day over sockets, and writes its report to `writer`.
///
/// It waits for one connection of each participant, in listing order, closes the listener at which it came, and runs the lines
/// at once. What they admit is published up to `PUBLISHED_AT_ONCE` entries at a time, and each publication is sent as one
/// packet to each port of lines A and B, unless `loss` drops it on a line. The sender rests at a pace that rises while nothing
/// is asked for again. Once the lines have ended, the end is sent three times on each of A and B, and then each second while a
/// connection is served or awaited, unless a participant's line or the sender met a fault. Meanwhile `serves` retransmission
/// connections are served, all at once; with 0 of them none is awaited. After all are joined the day is ended, each entry that
/// was sent is confirmed, and the number that the end told is compared with the day's length.
///
/// The status is 0 only if the report was written whole and flushed. A connection whose peer misbehaves ends alone, and a
/// packet that can't be sent is lost. If something else goes wrong, the least status of all is returned, and there is no
/// report, or part of it after a failed write: 3 if a participant's connection is not accepted, the listener of the
/// retransmission is gone, or there is not one listener for each participant; 4 for a failed write of the report; 5 if memory
/// runs out; 6 if no thread can be started for the lines; 7 if the tape disagrees with what was told, sent or served of it, and
/// for a limit outside 1 to `TAPE_MOST`.
pub fn live_over<R: Threads + Wait + Clock + Sync, L: Loss + Sync, W: Write>(
    rt: &R,
    alloc: Global,
    listing: Listing,
    limit: u32,
    matrix: Matrix,
    session: u64,
    serves: u16,
    sockets: LiveSockets,
    loss: &L,
    writer: &mut W,
) -> u8
    ensures report { result ≡ 0 → WritesOneReport (W.contents writer.old) (W.contents writer.new) }
    ensures listed { result ≡ 0 → WritesItsReport listing matrix limit (W.contents writer.old) (W.contents writer.new) }
    ensures unwritten { result ≢ 0 → result ≢ 4 → writer.new ≡ writer.old }
    ensures status { (result ≡ 0) ⊎ ((3 ≤ result) × (result ≤ 7)) }
{
    let Some(limit) = TapeNumber::try_new(limit) else {
        return status_without_limit(&listing, &sockets);
    };
    let day = Day {
        listing,
        matrix,
        limit,
        session,
    };
    let terms = LiveTerms {
        day,
        serves,
        connect_within: None,
        followers_wait: None,
    };
    match run_live(rt, alloc, terms, sockets, loss, writer) {
        Ok(()) => 0,
        Err(fault) => fault.status(),
    }
}
