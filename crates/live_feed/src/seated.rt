//! Runs the lines with their seats, and says how each came out.
ghost use Rattle.std.specs.Prelude.{◌≡◌, ◌≤◌, [], Some, length, map, vec_len};
ghost use Rattle.std.specs.Vec.{vec_capacity};
ghost use Rattle.line_ledger.specs.Ends.{whos};
ghost use Rattle.line_ledger.specs.Seats.{last_told};
ghost use Rattle.live_feed.specs.Accounts.{AreAccounts, told_account, told_end};
ghost use Rattle.live_feed.specs.Faults.{IsLeast, lack_fault, line_fault};

use crate::account::LineAccount;
use crate::bell::Bell;
use crate::line_counts::{LineStage, MessageCounts};
use crate::line_input::Reader;
use crate::line_slot::{CountingBell, LineSlot};
use feed_ends::Fault;
use line_ledger::{DayName, LineSeat, SharedTape};
use participant_lines::{
    Lack, LineOutcome, TalliedEnd, Unstarted, run_watched_lines, seats_of_lines, seats_of_tallied,
};
use std::alloc::Global;
use std::sync::{Arc, Wait};
use std::thread::Threads;

/// A seat and what its line is read from.
pub(crate) type SeatedLine<D> = (LineSeat<D>, Reader);

/// Lines that wait to run, with room for their seats after it. They must be spent.
pub(crate) struct Waiting<D: DayName> {
    /// The lines, in listing order.
    pub(crate) lines: Vec<SeatedLine<D>>,
    /// Where their seats are put.
    pub(crate) room: Vec<LineSeat<D>>,
    /// Where their accounts are put.
    pub(crate) accounts: Vec<LineAccount>,
    /// The slots by which an operator looks on, one for each line in its order; none in a day that nobody operates.
    pub(crate) slots: Vec<Arc<LineSlot>>,
    pub(crate) ghost roomy: { vec_len lines ≤ vec_capacity room },
    pub(crate) ghost unused: { room.items ≡ [] },
    pub(crate) ghost accountable: { vec_len lines ≤ vec_capacity accounts },
    pub(crate) ghost unaccounted: { accounts.items ≡ [] },
}

/// Lines that have run, or were not started. The seats must be spent.
pub(crate) struct Ran<D: DayName> {
    /// The seats of the lines, in listing order.
    pub(crate) seats: Vec<LineSeat<D>>,
    /// The fault of the least status.
    pub(crate) fault: Option<Fault>,
    /// The account of each line that ran, in listing order.
    pub(crate) accounts: Vec<LineAccount>,
    pub(crate) ghost counted: { AreAccounts seats.items accounts.items },
}

/// The seats with what their lines are read from, put into a vector with room for them.
pub(crate) fn seated_lines<D: DayName>(
    seats: Vec<LineSeat<D>>,
    readers: Vec<Reader>,
    lines: Vec<SeatedLine<D>>,
) -> Vec<SeatedLine<D>>
    requires many { vec_len seats ≡ vec_len readers }
    requires room { vec_len seats ≤ vec_capacity lines }
    requires empty { lines.items ≡ [] }
    ensures len { vec_len result ≡ vec_len seats }
    ensures whos { map (λ l. l.0.who) result.items ≡ whos seats.items }
    ensures readers { map (λ l. l.1) result.items ≡ readers.items }
{
    let mut lines = lines;
    let mut readers = readers.into_iter();
    let mut left = seats.into_iter();
    while let Some(seat) = left.next() {
        match readers.next() {
            Some(reader) => lines.push_reserved((seat, reader)),
            None => unreachable!(),
        }
    }
    left.destroy_empty();
    lines
}

/// The day's fault for the end of a line. A peer that misbehaves ends its own line alone.
fn fault_of_end(ended: LineOutcome) -> Option<Fault>
    ensures { result ≡ line_fault ended }
{
    match ended {
        LineOutcome::OutOfMemory => Some(Fault::Memory),
        LineOutcome::Behind => Some(Fault::Disagrees),
        LineOutcome::Clean
        | LineOutcome::Truncated
        | LineOutcome::Oversize
        | LineOutcome::ReadFault
        | LineOutcome::TooMany => None,
    }
}

/// The day's fault if memory or a worker is lacking.
fn fault_of_lack(lack: Lack) -> Fault
    ensures { result ≡ lack_fault lack }
{
    match lack {
        Lack::Memory => Fault::Memory,
        Lack::Worker => Fault::Worker,
    }
}

/// The fault of the least status that ended lines met.
fn fault_of_ends<D: DayName>(ends: &[TalliedEnd<D>]) -> Option<Fault>
    ensures { IsLeast (map (λ e. line_fault e.ended) ends.now) result }
{
    let mut fault = None;
    for end in ends {
        fault = Fault::least(fault, fault_of_end(end.ended));
    }
    fault
}

/// The account of a line that ended, of which a slot may know more.
fn account_of<D: DayName, R: Wait>(
    rt: &R,
    end: &TalliedEnd<D>,
    slot: Option<&Arc<LineSlot>>,
) -> LineAccount
    ensures who { result.who ≡ end.now.seat.who }
    ensures admitted { result.counts.admitted ≡ length end.now.seat.told }
    ensures last { result.counts.last ≡ last_told 0 end.now.seat.told }
    ensures tally { (result.counts.tally ≡ end.now.tally) × (result.ended ≡ end.now.ended) }
{
    let (stage, was_cut) = match slot {
        Some(slot) => (slot.seen(rt).stage, slot.was_cut()),
        None => (LineStage::Closed(0), false),
    };
    LineAccount {
        who: end.seat.participant(),
        stage,
        counts: MessageCounts {
            admitted: end.seat.count(),
            last: end.seat.last(),
            tally: end.tally,
        },
        ended: end.ended,
        was_cut,
    }
}

/// The accounts of lines that ended, put into a vector with room for them.
fn accounts_of<D: DayName, R: Wait>(
    rt: &R,
    ends: &[TalliedEnd<D>],
    slots: &[Arc<LineSlot>],
    accounts: Vec<LineAccount>,
) -> Vec<LineAccount>
    requires room { length ends.now ≤ vec_capacity accounts }
    requires empty { accounts.items ≡ [] }
    ensures { map (λ a. told_account a) result.items ≡ map (λ e. told_end e.seat e.tally e.ended) ends.now }
{
    let mut accounts = accounts;
    for at in 0..ends.len() {
        accounts.push_reserved(account_of(rt, &ends[at], slots.get(at)));
    }
    accounts
}

/// Lines that have run: the seats, the fault of the least status that one of them met, and their accounts. The rooms are for
/// these.
fn after_running<D: DayName, R: Wait>(
    rt: &R,
    ends: Vec<TalliedEnd<D>>,
    room: Vec<LineSeat<D>>,
    accounts: Vec<LineAccount>,
    slots: &[Arc<LineSlot>],
) -> Ran<D>
    requires room { vec_len ends ≤ vec_capacity room }
    requires empty { room.items ≡ [] }
    requires accountable { vec_len ends ≤ vec_capacity accounts }
    requires unaccounted { accounts.items ≡ [] }
    ensures seats { result.seats.items ≡ map (λ e. e.seat) ends.items }
    ensures whos { whos result.seats.items ≡ map (λ e. e.seat.who) ends.items }
    ensures fault { IsLeast (map (λ e. line_fault e.ended) ends.items) result.fault }
    // The tally and the end of each account are those of a run that left its seat.
    ensures accounts { map (λ a. told_account a) result.accounts.items ≡ map (λ e. told_end e.seat e.tally e.ended) ends.items }
{
    let fault = fault_of_ends(&ends);
    let accounts = accounts_of(rt, &ends, slots, accounts);
    Ran {
        seats: seats_of_tallied(ends, room),
        fault,
        accounts,
    }
}

/// Lines that were not started: their seats, and the fault of what was lacking. The rooms are for the seats and the accounts,
/// of which there is none.
fn not_started<D: DayName>(
    unstarted: Unstarted<D, Reader>,
    room: Vec<LineSeat<D>>,
    accounts: Vec<LineAccount>,
) -> Ran<D>
    requires room { vec_len unstarted.lines ≤ vec_capacity room }
    requires empty { room.items ≡ [] }
    requires none { unstarted.ends.items ≡ [] }
    requires unaccounted { accounts.items ≡ [] }
    ensures seats { result.seats.items ≡ map (λ l. l.0) unstarted.lines.items }
    ensures whos { whos result.seats.items ≡ map (λ l. l.0.who) unstarted.lines.items }
    ensures fault { result.fault ≡ Some (lack_fault unstarted.why) }
    ensures accounts { result.accounts.items ≡ [] }
{
    let Unstarted { ends, lines, why } = unstarted;
    ends.destroy_empty();
    Ran {
        seats: seats_of_lines(lines, room),
        fault: Some(fault_of_lack(why)),
        accounts,
    }
}

/// Runs the lines at once, each in a worker that rings the bell after each message, and counts it for an operator.
pub(crate) fn run_all<D: DayName + Send + Sync, R: Threads + Wait + Sync>(
    rt: &R,
    alloc: Global,
    shared: &SharedTape<D>,
    waiting: Waiting<D>,
    bell: &Bell,
) -> Ran<D>
    ensures { whos result.seats.items ≡ map (λ l. l.0.who) waiting.lines.items }
{
    let Waiting {
        lines,
        room,
        accounts,
        slots,
    } = waiting;
    let watch = CountingBell {
        bell,
        slots: &slots,
    };
    match run_watched_lines(rt, alloc, shared, lines, &watch) {
        Ok(ends) => after_running(rt, ends, room, accounts, &slots),
        Err(unstarted) => not_started(unstarted, room, accounts),
    }
}
