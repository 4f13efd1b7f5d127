//! Runs a day that is operated: someone looks on, and may end it.
ghost use Rattle.std.specs.Prelude.{◌≡◌, ◌<◌, ◌↔◌, Err, None, IfErr, IfOk, OnOk, length, vec_len, true, false};
ghost use Rattle.line_ledger.specs.Cells.{FirstTokens};
ghost use Rattle.line_ledger.specs.Days.{terms_of};
ghost use Rattle.line_ledger.specs.Ends.{IsOneEach};
ghost use Rattle.live_feed.specs.Faults.{FailsEarly, NoneBefore};
ghost use Rattle.live_feed.specs.Journals.{HasFailed};
ghost use Rattle.feed_ends.specs.Faults.{fault_status};
ghost use Rattle.feed_ends.specs.Reports.{WritesItsReport};

use crate::account::{LineAccount, account_of};
use crate::bell::Bell;
use crate::doors::wait_for_lines;
use crate::feed::Feed;
use crate::journal::DayJournal;
use crate::keeper::Keeper;
use crate::line_input::Reader;
use crate::line_slot::LineSlot;
use crate::live::{closing_of, finish_day};
use crate::opening::open_lines;
use crate::operation::Operation;
use crate::patience::Watch;
use crate::publishing::keep_journal;
use crate::restoring::JournalPast;
use crate::running::{Joined, Reported, run_and_report};
use crate::seated::Ran;
use crate::sender::room_for_a_packet;
use crate::starting::prepare_day;
use crate::{JournalFile, LiveSockets, Loss};
use day_terms::LiveTerms;
use feed_ends::Fault;
use line_ledger::{DayName, Prepared, SharedTape};
use std::alloc::Global;
use std::io::Write;
use std::marker::Brand;
use std::net::TcpListener;
use std::rt::Clock;
use std::sync::{Arc, Wait};
use std::thread::Threads;
use tape_types::can_start;
use whole_io::Lines;

/// How an operated day ended.
#[derive(Drop)]
pub struct LiveEnd {
    /// `Ok` if no fault was met; else the fault of the least status that was.
    pub result: Result<(), Fault>,
    /// Whether the report was written whole and flushed, which it may be although a fault was met after it.
    pub is_whole: bool,
    /// What is said of the day, for standard error: for each participant what became of its messages. Empty if the lines were
    /// not run, or memory ran out for it.
    pub account: Lines,
    /// Whether a write of the journal failed, or keeping what was written. The result is then `Write` or a fault of a lesser
    /// status, no end was sent and no report was written.
    pub journal_failed: bool,
}

/// How the run of a day ended.
#[derive(Drop)]
struct RunEnd {
    result: Result<(), Fault>,
    is_whole: bool,
    accounts: Vec<LineAccount>,
    given_up: u32,
    journal_failed: bool,
}

/// The end of a day that was not run, with this fault: that of its journal or another.
fn not_held(alloc: Global, fault: Fault, journal_failed: bool) -> RunEnd
    ensures result { result.result ≡ Err fault }
    ensures unwritten { result.is_whole ≡ false }
    ensures kept { result.journal_failed ≡ journal_failed }
{
    RunEnd {
        result: Err(fault),
        is_whole: false,
        accounts: Vec::new(alloc),
        given_up: 0,
        journal_failed,
    }
}

/// Splits off the day's accounts: the same day without them, and the accounts.
fn take_accounts<D: DayName>(alloc: Global, joined: Joined<D>) -> (Joined<D>, Vec<LineAccount>)
    ensures sent { result.0.sent ≡ joined.sent }
    ensures served { result.0.served ≡ joined.served }
    ensures seats { result.0.ran.seats ≡ joined.ran.seats }
    ensures fault { result.0.ran.fault ≡ joined.ran.fault }
    ensures accounts { result.1 ≡ joined.ran.accounts }
{
    let Joined { ran, sent, served } = joined;
    let Ran {
        seats,
        fault,
        accounts,
    } = ran;
    let ran = Ran {
        seats,
        fault,
        accounts: Vec::new(alloc),
    };
    (Joined { ran, sent, served }, accounts)
}

/// Returns further owners of the slots of a day's lines.
fn slots_of(alloc: Global, operation: &Operation) -> Result<Vec<Arc<LineSlot>>, Fault> {
    let mut slots = Vec::new(alloc);
    for slot in operation.lines.as_slice() {
        let Ok(slot) = Arc::try_clone(slot) else {
            return Err(Fault::Memory);
        };
        if slots.push(slot).is_err() {
            return Err(Fault::Memory);
        }
    }
    Ok(slots)
}

/// Ends a day that was joined, whose report was written whole or not.
fn held_of<D: DayName>(
    alloc: Global,
    shared: SharedTape<D>,
    joined: Joined<D>,
    is_whole: bool,
    given_up: u32,
    journal_failed: bool,
) -> RunEnd
    requires seats { IsOneEach D.terms.listing.participants joined.ran.seats.items }
    requires tokens { FirstTokens shared joined.sent.tokens.items }
    requires whole { joined.sent.fault ≡ None → is_whole ≡ true }
    ensures same { (result.is_whole ≡ is_whole) × (result.journal_failed ≡ journal_failed) }
    ensures whole { OnOk result.result (result.is_whole ≡ true) }
    ensures least { IfErr result.result (λ fault. NoneBefore fault joined.sent.fault) }
{
    let (joined, accounts) = take_accounts(alloc, joined);
    match finish_day(shared, joined) {
        Ok(ended) => {
            drop(ended);
            RunEnd {
                result: Ok(()),
                is_whole,
                accounts,
                given_up,
                journal_failed,
            }
        }
        Err(fault) => RunEnd {
            result: Err(fault),
            is_whole,
            accounts,
            given_up,
            journal_failed,
        },
    }
}

/// Whether the day's journal failed, if it has one.
fn journal_failed<J: JournalFile>(keeper: &Option<Keeper<J>>) -> bool
    ensures { (result ≡ true) ↔ HasFailed keeper.now }
{
    match keeper {
        Some(keeper) => keeper.has_failed(),
        None => false,
    }
}

/// What a day has before it runs.
#[derive(Drop)]
struct ReadyDay {
    prepared: Prepared,
    text: Vec<u8>,
    slots: Vec<Arc<LineSlot>>,
    readers: Vec<Reader>,
}

/// Runs the day of what is ready under a name, and writes its report. It goes on with what its journal had, if that is given:
/// the journal is kept first, and then restored.
/// Packets are written to its text.
fn run_named<
    D: DayName + Send + Sync,
    R: Threads + Wait + Clock + Sync,
    L: Loss + Sync,
    J: JournalFile + Send,
    W: Write,
>(
    rt: &R,
    feed: &Feed<'_, L>,
    ready: ReadyDay,
    past: Option<JournalPast>,
    keeper: &mut Option<Keeper<J>>,
    watch: &Watch<'_>,
    writer: &mut W,
) -> RunEnd
    requires name { ready.prepared.blank.name ≡ D.name }
    requires parts { ready.prepared.blank.parts ≡ D.parts }
    requires terms { terms_of ready.prepared.tape ≡ D.terms }
    requires many { vec_len ready.readers ≡ length D.terms.listing.participants }
    requires kept { ¬ HasFailed keeper.old }
    ensures report { result.is_whole ≡ true
        → WritesItsReport D.terms.listing D.terms.matrix D.terms.limit (W.contents writer.old) (W.contents writer.new) }
    ensures whole { OnOk result.result (result.is_whole ≡ true) }
    ensures unwritten { result.is_whole ≡ false → IfErr result.result (λ fault. 4 < fault_status fault → writer.new ≡ writer.old) }
    ensures journal { result.journal_failed ≡ true → FailsEarly result.is_whole result.result }
    ensures failed { HasFailed keeper.new → result.journal_failed ≡ true }
{
    let ReadyDay {
        prepared,
        mut text,
        slots,
        readers,
    } = ready;
    if let Err(fault) = keep_journal(keeper) {
        drop(prepared);
        return not_held(feed.alloc, fault, true);
    }
    let past_now = past.as_ref();
    let opened = open_lines::<D, R, J>(rt, feed.alloc, keeper, prepared, readers, slots, past_now);
    drop(past);
    let (shared, waiting) = match opened {
        Ok(opened) => opened,
        Err(fault) => return not_held(feed.alloc, fault, false),
    };
    let Reported {
        joined,
        is_whole,
        given_up,
    } = run_and_report(rt, feed, &shared, keeper, waiting, watch, &mut text, writer);
    let failed = journal_failed(keeper);
    held_of(feed.alloc, shared, joined, is_whole, given_up, failed)
}

/// Runs the day of what is ready, and writes its report. It goes on with what its journal had, if that is given.
fn run_prepared<R: Threads + Wait + Clock + Sync, L: Loss + Sync, J: JournalFile + Send, W: Write>(
    rt: &R,
    feed: &Feed<'_, L>,
    ready: ReadyDay,
    past: Option<JournalPast>,
    keeper: &mut Option<Keeper<J>>,
    watch: &Watch<'_>,
    writer: &mut W,
) -> RunEnd
    requires many { vec_len ready.readers ≡ length ready.prepared.tape.listing.participants }
    requires kept { ¬ HasFailed keeper.old }
    ensures report { result.is_whole ≡ true → WritesItsReport ready.prepared.tape.listing ready.prepared.tape.matrix ready.prepared.tape.limit
        (W.contents writer.old) (W.contents writer.new) }
    ensures whole { OnOk result.result (result.is_whole ≡ true) }
    ensures unwritten { result.is_whole ≡ false → IfErr result.result (λ fault. 4 < fault_status fault → writer.new ≡ writer.old) }
    ensures journal { result.journal_failed ≡ true → FailsEarly result.is_whole result.result }
    ensures failed { HasFailed keeper.new → result.journal_failed ≡ true }
{
    run_named::<Brand, R, L, J, W>(rt, feed, ready, past, keeper, watch, writer)
}

/// Returns the keeper of a day's journal, if it has one, and what the journal had, if the day goes on.
fn keeper_of<J: JournalFile>(
    alloc: Global,
    session: u64,
    journal: Option<DayJournal<J>>,
) -> (Option<Keeper<J>>, Option<JournalPast>)
    ensures kept { ¬ HasFailed result.0 }
{
    let Some(
        DayJournal {
            groups,
            file,
            restored,
        },
    ) = journal
    else {
        return (None, None);
    };
    let keeper = Keeper::new(alloc, groups, file);
    let past = match restored {
        Some(restored) => Some(JournalPast {
            restored,
            session,
            held: keeper.held(),
        }),
        None => None,
    };
    (Some(keeper), past)
}

/// Waits until the participants have connected or were given up, and returns what the day's lines are read from. Returns
/// `Worker` if no thread can be started for them then.
fn readers_of<R: Threads + Wait + Clock>(
    rt: &R,
    alloc: Global,
    operation: &Operation,
    connect_within: Option<u32>,
    lines: Vec<TcpListener>,
) -> Result<Vec<Reader>, Fault>
    ensures { IfOk result (λ readers. vec_len readers ≡ vec_len lines) }
{
    let readers = wait_for_lines(rt, alloc, operation, connect_within, lines)?;
    if !can_start(rt) {
        return Err(Fault::Worker);
    }
    Ok(readers)
}

/// Prepares a day of these terms and waits for its lines.
fn ready_day<R: Threads + Wait + Clock>(
    rt: &R,
    alloc: Global,
    terms: LiveTerms,
    lines: Vec<TcpListener>,
    operation: &Operation,
) -> Result<ReadyDay, Fault>
    ensures many { IfOk result (λ ready. vec_len ready.readers ≡ length terms.day.listing.participants) }
    ensures listed { IfOk result (λ ready. ready.prepared.tape.listing ≡ terms.day.listing) }
    ensures by_matrix { IfOk result (λ ready. ready.prepared.tape.matrix ≡ terms.day.matrix) }
    ensures limited { IfOk result (λ ready. ready.prepared.tape.limit ≡ terms.day.limit) }
{
    if lines.len() != terms.day.listing.participants().as_slice().len() {
        return Err(Fault::Read);
    }
    let text = room_for_a_packet(alloc)?;
    let slots = slots_of(alloc, operation)?;
    let connect_within = terms.connect_within;
    let prepared = prepare_day(alloc, terms.day)?;
    match readers_of(rt, alloc, operation, connect_within, lines) {
        Ok(readers) => Ok(ReadyDay {
            prepared,
            text,
            slots,
            readers,
        }),
        Err(fault) => {
            drop(prepared);
            Err(fault)
        }
    }
}

/// The end of a day that was run, with its account.
fn end_of(alloc: Global, held: RunEnd) -> LiveEnd
    ensures result { result.result ≡ held.result }
    ensures is_whole { result.is_whole ≡ held.is_whole }
    ensures journal { result.journal_failed ≡ held.journal_failed }
{
    let RunEnd {
        result,
        is_whole,
        accounts,
        given_up,
        journal_failed,
    } = held;
    let account = match account_of(alloc, &accounts, given_up) {
        Ok(account) => account,
        Err(_) => Lines::new(alloc),
    };
    LiveEnd {
        result,
        is_whole,
        account,
        journal_failed,
    }
}

/// Runs a day that is operated, and writes its report to `writer` once its lines have ended and the end was sent.
///
/// It waits for one connection of each participant, at all listeners at once, for `connect_within` seconds, and closes the
/// listener at which one came. A participant that did not connect in time is given up: the day runs without it. Then it runs as
/// `live_over` does, but its report is written after the first ends, while followers may still ask, for `followers_wait`
/// seconds or until the last has ended. `operation` was made of the same listing; by it others see meanwhile how the day
/// stands, and may end it: then all that was read of the lines is admitted, and nothing else.
///
/// A connection whose peer misbehaves ends alone, and a packet that can't be sent is lost. If something else goes wrong, the
/// result is the fault of the least status: `Read` if a participant's connection can't be accepted, the listener of the
/// retransmission is gone, or there is not one listener and one line of the operation for each participant; `Write` for a
/// failed write of the report; `Memory`; `Worker` if no thread can be started for the lines; `Disagrees` if the tape disagrees
/// with what was told or sent of it. Without `Read` and `Write` there is the whole report or none of it.
///
/// With a `journal` what the lines admit is appended to it as one group, up to 4,096 entries at once, and kept, before any of
/// it is published or sent; while one group is kept the next gathers. If that fails nothing more is published, and the day ends
/// as after another fault of the sender, with `Write` and `journal_failed`. If the journal had entries when it was opened, the
/// day goes on after them under the same numbers: they are admitted, each by the seat of its participant, and published, but
/// not sent again; `Disagrees` if they are not what this day makes of their messages.
pub fn live_day<R: Threads + Wait + Clock + Sync, L: Loss + Sync, J: JournalFile + Send, W: Write>(
    rt: &R,
    alloc: Global,
    terms: LiveTerms,
    sockets: LiveSockets,
    loss: &L,
    operation: &Operation,
    journal: Option<DayJournal<J>>,
    writer: &mut W,
) -> LiveEnd
    ensures report { result.is_whole ≡ true
        → WritesItsReport terms.day.listing terms.day.matrix terms.day.limit (W.contents writer.old) (W.contents writer.new) }
    ensures whole { OnOk result.result (result.is_whole ≡ true) }
    ensures unwritten { result.is_whole ≡ false → IfErr result.result (λ fault. 4 < fault_status fault → writer.new ≡ writer.old) }
    ensures journal { result.journal_failed ≡ true → FailsEarly result.is_whole result.result }
{
    let (session, serves, followers_wait) = (terms.day.session, terms.serves, terms.followers_wait);
    let LiveSockets {
        lines,
        retransmission,
        sender,
        a,
        b,
    } = sockets;
    let closing = match closing_of(&retransmission) {
        Ok(closing) => closing,
        Err(fault) => return end_of(alloc, not_held(alloc, fault, false)),
    };
    let ready = match ready_day(rt, alloc, terms, lines, operation) {
        Ok(ready) => ready,
        Err(fault) => return end_of(alloc, not_held(alloc, fault, false)),
    };
    let bell = Bell::new();
    let feed = Feed {
        sender: &sender,
        retransmission: &retransmission,
        closing: &closing,
        a: &a,
        b: &b,
        loss,
        bell: &bell,
        session,
        serves,
        alloc,
    };
    let watch = Watch {
        followers_wait,
        hurried: &operation.hurried,
        followers: &operation.followers,
        lines: operation.lines.as_slice(),
    };
    let (mut keeper, past) = keeper_of(alloc, session, journal);
    let held = run_prepared(rt, &feed, ready, past, &mut keeper, &watch, writer);
    end_of(alloc, held)
}
