//! Runs a day's lines, its sender and its retransmission at once, and joins them.
ghost use Rattle.std.specs.Prelude.{◌≡◌, ◌≢◌, ◌⊎◌, None, IsSome, IfSome, Some, [], length, map, false, true};
ghost use Rattle.std.specs.Thread.{IsSync};
ghost use Rattle.feed_ends.specs.declared.fault.Fault.TheVariants.{Write as WriteFault};
ghost use Rattle.line_ledger.specs.Cells.{FirstTokens, shown};
ghost use Rattle.line_ledger.specs.Ends.{whos};
ghost use Rattle.live_feed.specs.Faults.{EndsEarly};
ghost use Rattle.live_feed.specs.Journals.{HasFailed, Runs};
ghost use Rattle.live_feed.specs.Reports.{ReportsDay};
ghost use Rattle.live_feed.specs.Sendings.{end_text};

use crate::feed::Feed;
use crate::keeper::Keeper;
use crate::patience::Watch;
use crate::reporting::{Ending, end_and_report};
use crate::retransmission::{Served, serve_all};
use crate::seated::{Ran, Waiting, run_all};
use crate::sender::{SenderEnd, send_end, send_entries};
use crate::serving::Serving;
use crate::{JournalFile, Loss, MemoryJournal};
use feed_ends::Fault;
use line_ledger::{DayName, SharedTape};
use std::io::Write;
use std::rt::Clock;
use std::sync::Wait;
use std::thread::{Threads, join_mut};

/// The outcome of the lines and of the sender. The seats must be spent.
struct RanAndSent<D: DayName> {
    ran: Ran<D>,
    sent: SenderEnd,
}

/// The outcome of the lines, of the sender and of the report. The seats must be spent.
struct RanAndEnded<D: DayName> {
    ran: Ran<D>,
    ending: Ending,
}

/// The outcome of all of a day. Its seats must be spent.
pub(crate) struct Joined<D: DayName> {
    /// The lines.
    pub(crate) ran: Ran<D>,
    /// The sender.
    pub(crate) sent: SenderEnd,
    /// The retransmission.
    pub(crate) served: Served,
}

/// The outcome of all of a day whose report was written before its followers had gone. Its seats must be spent.
pub(crate) struct Reported<D: DayName> {
    /// All of the day: the fault of its sender is also what kept the end or the report back.
    pub(crate) joined: Joined<D>,
    /// Whether the report was written whole and flushed.
    pub(crate) is_whole: bool,
    /// How many connections were still served when they were given up after the end, which is no fault.
    pub(crate) given_up: u32,
}

/// Runs the lines that wait, which are taken out, and then rings the bell for the last time.
fn run_waiting<D: DayName + Send + Sync, R: Threads + Wait + Sync, L>(
    rt: &R,
    feed: &Feed<'_, L>,
    shared: &SharedTape<D>,
    waiting: &mut Option<Waiting<D>>,
) -> Option<Ran<D>>
    requires { IsSome waiting.old }
    ensures taken { waiting.new ≡ None }
    ensures some { IsSome result }
    ensures ran { IfSome waiting.old (λ w. IfSome result (λ ran. whos ran.seats.items ≡ map (λ l. l.0.who) w.lines.items)) }
{
    let ran = match waiting.take() {
        Some(lines) => Some(run_all(rt, feed.alloc, shared, lines, feed.bell)),
        None => None,
    };
    feed.bell.end();
    ran
}

/// Runs the lines that wait, which are taken out, next to the sender, and joins both. No end is sent yet.
fn run_beside_sender<
    D: DayName + Send + Sync,
    R: Threads + Wait + Clock + Sync,
    L: Loss + Sync,
    J: JournalFile + Send,
>(
    rt: &R,
    feed: &Feed<'_, L>,
    shared: &SharedTape<D>,
    keeper: &mut Option<Keeper<J>>,
    waiting: &mut Option<Waiting<D>>,
    serving: &Serving<'_>,
    text: &mut Vec<u8>,
) -> RanAndSent<D>
    requires { IsSome waiting.old }
    ensures taken { waiting.new ≡ None }
    ensures ran { IfSome waiting.old (λ w. whos result.ran.seats.items ≡ map (λ l. l.0.who) w.lines.items) }
    ensures first { FirstTokens shared.now result.sent.tokens.items }
    ensures whole { result.sent.fault ≡ None → length result.sent.tokens.items ≡ result.sent.number }
    ensures journal { result.sent.fault ≡ None → Runs keeper.old keeper.new (shown result.sent.tokens.items) }
    ensures failed { HasFailed keeper.new → HasFailed keeper.old ⊎ (result.sent.fault ≡ Some WriteFault) }
{
    let mut lines = waiting.take();
    let (sent, ran) = join_mut(
        rt,
        &mut || send_entries(rt, feed, shared, keeper, serving, text),
        &mut || -> Option<Ran<D>>
            requires { IsSync R.row × IsSome lines }
            ensures { (lines.exit ≡ None) × IsSome result
                × IfSome lines.entry (λ w. IfSome result (λ ran. whos ran.seats.items ≡ map (λ l. l.0.who) w.lines.items)) }
        { run_waiting(rt, feed, shared, &mut lines) },
    );
    match (lines, ran) {
        (None, Some(ran)) => RanAndSent { ran, sent },
        _ => unreachable!(),
    }
}

/// Runs the lines that wait, which are taken out, next to the sender, joins both, and then sends the end. If a line met a fault
/// no end is sent, and the text is empty.
fn run_and_send<D: DayName + Send + Sync, R: Threads + Wait + Clock + Sync, L: Loss + Sync>(
    rt: &R,
    feed: &Feed<'_, L>,
    shared: &SharedTape<D>,
    waiting: &mut Option<Waiting<D>>,
    serving: &Serving<'_>,
    text: &mut Vec<u8>,
) -> Option<RanAndSent<D>>
    requires { IsSome waiting.old }
    ensures taken { waiting.new ≡ None }
    ensures some { IsSome result }
    ensures ran { IfSome waiting.old (λ w. IfSome result (λ both. whos both.ran.seats.items ≡ map (λ l. l.0.who) w.lines.items)) }
    ensures first { IfSome result (λ both. FirstTokens shared.now both.sent.tokens.items) }
    ensures end { IfSome result (λ both. both.sent.fault ≡ None → text.new.items ≡ end_text feed.now.session both.sent.number) }
    ensures no_end { IfSome result (λ both. IsSome both.ran.fault → text.new.items ≡ []) }
{
    let mut keeper = None::<Keeper<MemoryJournal>>;
    let RanAndSent { ran, sent } = run_beside_sender(
        rt,
        feed,
        shared,
        &mut keeper,
        waiting,
        serving,
        text,
    );
    let sent = send_end(rt, feed, serving, sent, ran.fault, text);
    Some(RanAndSent { ran, sent })
}

/// Runs the lines that wait, which are taken out, next to the sender, joins both, and then ends the day with its report. If a
/// line met a fault no end is sent, and the text is empty.
fn run_and_end<
    D: DayName + Send + Sync,
    R: Threads + Wait + Clock + Sync,
    L: Loss + Sync,
    J: JournalFile + Send,
    W: Write,
>(
    rt: &R,
    feed: &Feed<'_, L>,
    shared: &SharedTape<D>,
    keeper: &mut Option<Keeper<J>>,
    waiting: &mut Option<Waiting<D>>,
    serving: &Serving<'_>,
    watch: &Watch<'_>,
    text: &mut Vec<u8>,
    writer: &mut W,
) -> Option<RanAndEnded<D>>
    requires { IsSome waiting.old }
    ensures taken { waiting.new ≡ None }
    ensures some { IsSome result }
    ensures ran { IfSome waiting.old (λ w. IfSome result (λ both. whos both.ran.seats.items ≡ map (λ l. l.0.who) w.lines.items)) }
    ensures first { IfSome result (λ both. FirstTokens shared.now both.ending.sent.tokens.items) }
    ensures end { IfSome result (λ both. both.ending.sent.fault ≡ None → text.new.items ≡ end_text feed.now.session both.ending.sent.number) }
    ensures no_end { IfSome result (λ both. IsSome both.ran.fault → text.new.items ≡ []) }
    ensures report { IfSome result (λ both. both.ending.is_whole ≡ true
        → ReportsDay D.terms (shown both.ending.sent.tokens.items) (W.contents writer.old) (W.contents writer.new)) }
    ensures whole { IfSome result (λ both. both.ending.sent.fault ≡ None → both.ending.is_whole ≡ true) }
    ensures unwritten { IfSome result (λ both. both.ending.is_whole ≡ false → both.ending.sent.fault ≢ Some WriteFault → writer.new ≡ writer.old) }
    ensures journal { IfSome result (λ both. both.ending.sent.fault ≡ None → Runs keeper.old keeper.new (shown both.ending.sent.tokens.items)) }
    ensures failed { IfSome result (λ both. HasFailed keeper.new → HasFailed keeper.old ⊎ EndsEarly WriteFault both.ending.is_whole both.ending.sent.fault) }
{
    let RanAndSent { ran, sent } = run_beside_sender(
        rt, feed, shared, keeper, waiting, serving, text,
    );
    let ending = end_and_report(rt, feed, shared, serving, watch, &ran, sent, text, writer);
    Some(RanAndEnded { ran, ending })
}

/// Runs the lines, the sender and the retransmission at once, and joins all; packets are written to `text`. If no thread can be
/// started the lines run first, then the sender, and the retransmission last, so that none waits for one that has yet to start.
pub(crate) fn run_together<
    D: DayName + Send + Sync,
    R: Threads + Wait + Clock + Sync,
    L: Loss + Sync,
>(
    rt: &R,
    feed: &Feed<'_, L>,
    shared: &SharedTape<D>,
    waiting: Waiting<D>,
    text: &mut Vec<u8>,
) -> Joined<D>
    ensures whos { whos result.ran.seats.items ≡ map (λ l. l.0.who) waiting.lines.items }
    ensures first { FirstTokens shared.now result.sent.tokens.items }
{
    let serving = Serving::new(feed.alloc, None, &[]);
    let mut waiting = Some(waiting);
    let (served, both) = join_mut(
        rt,
        &mut || serve_all(rt, feed, shared, &serving),
        &mut || -> Option<RanAndSent<D>>
            requires { IsSync R.row × IsSome waiting }
            ensures { (waiting.exit ≡ None) × IsSome result
                × IfSome waiting.entry (λ w. IfSome result (λ both. whos both.ran.seats.items ≡ map (λ l. l.0.who) w.lines.items))
                × IfSome result (λ both. FirstTokens shared.entry.now both.sent.tokens.items) }
        { run_and_send(rt, feed, shared, &mut waiting, &serving, text) },
    );
    match (waiting, both) {
        (None, Some(RanAndSent { ran, sent })) => Joined { ran, sent, served },
        _ => unreachable!(),
    }
}

/// The same for a day that looks on at its followers: its report is written once its lines have ended and the first ends were
/// sent, and the end is repeated while followers may ask. What is met after the report, as by a connection out of memory, is a
/// fault though the report stands.
pub(crate) fn run_and_report<
    D: DayName + Send + Sync,
    R: Threads + Wait + Clock + Sync,
    L: Loss + Sync,
    J: JournalFile + Send,
    W: Write,
>(
    rt: &R,
    feed: &Feed<'_, L>,
    shared: &SharedTape<D>,
    keeper: &mut Option<Keeper<J>>,
    waiting: Waiting<D>,
    watch: &Watch<'_>,
    text: &mut Vec<u8>,
    writer: &mut W,
) -> Reported<D>
    ensures whos { whos result.joined.ran.seats.items ≡ map (λ l. l.0.who) waiting.lines.items }
    ensures first { FirstTokens shared.now result.joined.sent.tokens.items }
    ensures report { result.is_whole ≡ true
        → ReportsDay D.terms (shown result.joined.sent.tokens.items) (W.contents writer.old) (W.contents writer.new) }
    ensures whole { result.joined.sent.fault ≡ None → result.is_whole ≡ true }
    ensures unwritten { result.is_whole ≡ false → result.joined.sent.fault ≢ Some WriteFault → writer.new ≡ writer.old }
    ensures journal { result.joined.sent.fault ≡ None → Runs keeper.old keeper.new (shown result.joined.sent.tokens.items) }
    ensures failed { HasFailed keeper.new → HasFailed keeper.old ⊎ EndsEarly WriteFault result.is_whole result.joined.sent.fault }
{
    let serving = Serving::new(feed.alloc, Some(watch.followers), watch.lines);
    let mut waiting = Some(waiting);
    let (served, both) = join_mut(
        rt,
        &mut || serve_all(rt, feed, shared, &serving),
        &mut || -> Option<RanAndEnded<D>>
            requires { IsSync R.row × IsSome waiting }
            ensures { (waiting.exit ≡ None) × IsSome result
                × IfSome waiting.entry (λ w. IfSome result (λ both. whos both.ran.seats.items ≡ map (λ l. l.0.who) w.lines.items))
                × IfSome result (λ both. FirstTokens shared.entry.now both.ending.sent.tokens.items)
                × IfSome result (λ both. both.ending.is_whole ≡ true
                → ReportsDay D.terms (shown both.ending.sent.tokens.items) (W.contents writer.entry.now) (W.contents writer.exit.now))
                × IfSome result (λ both. both.ending.sent.fault ≡ None → both.ending.is_whole ≡ true)
                × IfSome result (λ both. both.ending.is_whole ≡ false → both.ending.sent.fault ≢ Some WriteFault → writer.exit.now ≡ writer.entry.now)
                × IfSome result (λ both. both.ending.sent.fault ≡ None → Runs keeper.entry.now keeper.exit.now (shown both.ending.sent.tokens.items))
                × IfSome result (λ both. HasFailed keeper.exit.now → HasFailed keeper.entry.now
                ⊎ EndsEarly WriteFault both.ending.is_whole both.ending.sent.fault) }
        {
            run_and_end(
                rt,
                feed,
                shared,
                keeper,
                &mut waiting,
                &serving,
                watch,
                text,
                writer,
            )
        },
    );
    match (waiting, both) {
        (None, Some(RanAndEnded { ran, ending })) => Reported {
            is_whole: ending.is_whole,
            given_up: ending.given_up,
            joined: Joined {
                ran,
                sent: ending.sent,
                served,
            },
        },
        _ => unreachable!(),
    }
}
