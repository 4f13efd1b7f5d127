//! Ends a day whose report is written before its followers have gone: sends the end, writes the report, and repeats the end.
ghost use Rattle.std.specs.Prelude.{◌≡◌, ◌≢◌, ◌⊎◌, [], ◌∷◌, IfErr, IfOk, IfSome, IsSome, None, OnErr, Some, length, false, true};
ghost use Rattle.line_ledger.specs.Cells.{FirstTokens, shown};
ghost use Rattle.feed_ends.specs.declared.fault.Fault.TheVariants.{Write as WriteFault};
ghost use Rattle.live_feed.specs.Faults.{EndsEarly, IsLeast};
ghost use Rattle.live_feed.specs.Patience.{is_enough};
ghost use Rattle.live_feed.specs.Reports.{ReportsDay};
ghost use Rattle.live_feed.specs.Sendings.{end_text};

use crate::clock::nanos_of;
use crate::feed::Feed;
use crate::patience::{Watch, is_enough};
use crate::seated::Ran;
use crate::sender::{PAUSE_BEFORE_LATER_END, SenderEnd, send_first_ends, send_to_both, spell_end};
use crate::serving::Serving;
use feed_ends::{Fault, write_day};
use line_ledger::{DayName, LineSeat, SharedTape, Sighting};
use std::io::Write;
use std::rt::Clock;
use std::sync::Wait;
use std::thread::Threads;
use std::time::Duration;
use tape_core::IndexedTape;

/// How a day's end went.
#[derive(Drop)]
pub(crate) struct Ending {
    /// The sender, with the fault that kept the end or the report back.
    pub(crate) sent: SenderEnd,
    /// Whether the report was written whole and flushed.
    pub(crate) is_whole: bool,
    /// How many connections were still served when they were given up after the end.
    pub(crate) given_up: u32,
}

/// Whether a tape of the day is what was sent of it: it has as many entries as the end is to tell and the sender saw, and has
/// what was seen of each.
fn is_as_sent<D: DayName>(
    shared: &SharedTape<D>,
    tape: &IndexedTape,
    tokens: &Vec<Sighting>,
    number: u32,
) -> bool
    requires { FirstTokens shared.now tokens.now.items }
    ensures number { result ≡ true → length tape.now.entries ≡ number }
    ensures entries { result ≡ true → tape.now.entries ≡ shown tokens.now.items }
{
    tokens.len() == number as usize
        && tape.entries().len() == number as usize
        && shared.have_all_seen(tape.entries(), tokens, number)
}

/// Sends the first ends of a day that was sent whole, and then writes its report. Returns `Ok` if the end was sent, with the
/// fault for which there is no report, if there is none. `Disagrees` if the tape is not what was sent of it, or not what the
/// lines were told: then no end was sent and nothing was written. Nothing is admitted meanwhile. `text` is only room, and holds
/// the end afterwards.
fn end_and_write<D: DayName, R: Threads + Wait + Clock + Sync, L, W: Write>(
    rt: &R,
    feed: &Feed<'_, L>,
    shared: &SharedTape<D>,
    seats: &[LineSeat<D>],
    sent: &SenderEnd,
    text: &mut Vec<u8>,
    writer: &mut W,
) -> Result<Option<Fault>, Fault>
    requires tokens { FirstTokens shared.now sent.now.tokens.items }
    requires whole { sent.now.fault ≡ None }
    requires many { length sent.now.tokens.items ≡ sent.now.number }
    ensures end { IfOk result (λ _. text.new.items ≡ end_text feed.now.session sent.now.number) }
    ensures report { IfOk result (λ met. met ≡ None → ReportsDay D.terms (shown sent.now.tokens.items) (W.contents writer.old) (W.contents writer.new)) }
    ensures unreported { IfOk result (λ met. IfSome met (λ fault. fault ≢ WriteFault → writer.new ≡ writer.old)) }
    ensures unwritten { OnErr result (writer.new ≡ writer.old) }
{
    let held = shared.read(rt);
    let tape = held.tape();
    if !is_as_sent(shared, tape, &sent.tokens, sent.number) || !held.was_told(seats) {
        return Err(Fault::Disagrees);
    }
    spell_end(feed, sent, text)?;
    send_first_ends(rt, feed, sent, text);
    Ok(write_day(rt, feed.alloc, tape, writer).err())
}

/// Gives up the followers, which are waited for no longer. Returns how many were still served.
fn give_up_rest<R: Wait, L>(
    rt: &R,
    feed: &Feed<'_, L>,
    serving: &Serving<'_>,
    hurried: bool,
    seconds: Option<u32>,
    began: u64,
    now: u64,
) -> u32
    requires { is_enough hurried seconds began now ≡ true }
{
    // For the proof alone: only clauses speak of these.
    let _ = (hurried, seconds, began, now);
    serving.give_up(rt, feed.closing)
}

/// Sends the end of a day that was sent whole again and again while a connection is served or awaited and is to be waited for.
/// Returns how many were still served when they were given up, which is no fault.
fn repeat_end_within<R: Wait + Clock, L>(
    rt: &R,
    feed: &Feed<'_, L>,
    serving: &Serving<'_>,
    watch: &Watch<'_>,
    sent: &SenderEnd,
    end: &[u8],
) -> u32
    requires whole { sent.now.fault ≡ None }
    requires many { length sent.now.tokens.items ≡ sent.now.number }
    requires end { end.now ≡ end_text feed.now.session sent.now.number }
{
    // For the proof alone: only clauses speak of it.
    let _ = sent;
    let began = nanos_of(rt);
    for _ in rt.forever() {
        let now = nanos_of(rt);
        let hurried = watch.is_hurried();
        if is_enough(hurried, watch.followers_wait, began, now) {
            return give_up_rest(rt, feed, serving, hurried, watch.followers_wait, began, now);
        }
        if !serving.is_left_after(rt, Duration::from_millis(PAUSE_BEFORE_LATER_END)) {
            return 0;
        }
        send_to_both(feed, end);
    }
    unreachable!()
}

/// Ends a day whose lines and sender have ended. If neither met a fault and the tape is what was sent of it, the end is sent,
/// the report written, and the end repeated while followers may ask. Else no end is sent, since a follower would take the day
/// for whole and reported: the connections are ended instead, and `text` is empty. `text` is only room.
pub(crate) fn end_and_report<D: DayName, R: Threads + Wait + Clock + Sync, L, W: Write>(
    rt: &R,
    feed: &Feed<'_, L>,
    shared: &SharedTape<D>,
    serving: &Serving<'_>,
    watch: &Watch<'_>,
    ran: &Ran<D>,
    sent: SenderEnd,
    text: &mut Vec<u8>,
    writer: &mut W,
) -> Ending
    requires tokens { FirstTokens shared.now sent.tokens.items }
    requires whole { sent.fault ≡ None → length sent.tokens.items ≡ sent.number }
    ensures same { (result.sent.tokens ≡ sent.tokens) × (result.sent.number ≡ sent.number) }
    ensures met { ((sent.fault ≡ None) × (ran.now.fault ≡ None)) ⊎ IsLeast (sent.fault ∷ ran.now.fault ∷ []) result.sent.fault }
    ensures end { result.sent.fault ≡ None → text.new.items ≡ end_text feed.now.session sent.number }
    ensures lines { IsSome ran.now.fault → text.new.items ≡ [] }
    ensures report { result.is_whole ≡ true → ReportsDay D.terms (shown sent.tokens.items) (W.contents writer.old) (W.contents writer.new) }
    ensures whole { result.sent.fault ≡ None → result.is_whole ≡ true }
    ensures unwritten { result.is_whole ≡ false → result.sent.fault ≢ Some WriteFault → writer.new ≡ writer.old }
    ensures early { IfSome sent.fault (λ fault. EndsEarly fault result.is_whole result.sent.fault) }
{
    let met = Fault::least(sent.fault, ran.fault);
    let sent = sent.with_fault(met);
    let ended = match met {
        None => end_and_write(rt, feed, shared, &ran.seats, &sent, text, writer),
        Some(fault) => Err(fault),
    };
    match ended {
        Ok(unreported) => {
            let given_up = repeat_end_within(rt, feed, serving, watch, &sent, text);
            Ending {
                sent: sent.with_fault(unreported),
                is_whole: unreported.is_none(),
                given_up,
            }
        }
        Err(fault) => {
            text.clear();
            serving.give_up(rt, feed.closing);
            Ending {
                sent: sent.with_fault(Some(fault)),
                is_whole: false,
                given_up: 0,
            }
        }
    }
}
