//! The sender: publishes what the lines admit and sends it on both lines, sends beats while there is nothing, and at last the
//! end.
ghost use Rattle.std.specs.Prelude.{◌≡◌, ◌<◌, ◌≤◌, ◌+◌, ◌⊎◌, [], ◌∷◌, Err, IfErr, IfOk, IsSome, OnOk, None, Some, length};
ghost use Rattle.line_ledger.specs.Cells.{FirstTokens, shown};
ghost use Rattle.line_ledger.specs.Publishing.{GoesOn};
ghost use Rattle.tape_frames.specs.Sources.{IsPublished};
ghost use Rattle.tape_frames.specs.Spelling.{packet_text};
ghost use Rattle.tape_frames.specs.declared.version.Version.TheVariants.{Two};
ghost use Rattle.live_feed.specs.Faults.{IsLeast};
ghost use Rattle.live_feed.specs.Journals.{AllKept, Grows, HasFailed, Runs, Steps};
ghost use Rattle.live_feed.specs.Sendings.{IsSent, beat_text, data_text, end_text};
ghost use Rattle.feed_ends.specs.declared.fault.Fault.TheVariants.{Memory, Write as WriteFault};

use crate::budget::Budget;
use crate::clock::nanos_of;
use crate::feed::Feed;
use crate::keeper::Keeper;
use crate::publishing::{begin, publish_next};
use crate::quiet::Quiet;
use crate::request_flag::RequestFlag;
use crate::serving::Serving;
use crate::{JournalFile, Loss};
use arbitration::Line;
use feed_ends::{Fault, here};
use line_ledger::{DayName, Published, SharedTape, Sighting};
use std::alloc::Global;
use std::rt::Clock;
use std::sync::Wait;
use std::thread;
use std::time::Duration;
use tape_frames::{EntryCount, LONGEST_PACKET, Packet, Source, Version, cut, write_packet};

/// How long the sender waits before each of the first ends, in milliseconds: a reader whose buffer is full empties it
/// meanwhile, and one that was held up for half a second still gets an end.
const PAUSES_BEFORE_ENDS: [u64; 3] = [0, 250, 750];

/// How long the sender waits before each later end, in milliseconds.
pub(crate) const PAUSE_BEFORE_LATER_END: u64 = 1_000;

/// The outcome of the sender.
#[derive(Drop)]
pub(crate) struct SenderEnd {
    /// What was seen of each entry that it found published, in order. What it sent was cut from these entries.
    pub(crate) tokens: Vec<Sighting>,
    /// The number of the last entry that was sent, which the end says.
    pub(crate) number: u32,
    /// Why it did not go on to the last entry, or sent no end: its own fault, or one that the lines met.
    pub(crate) fault: Option<Fault>,
}

impl SenderEnd {
    /// The same with this fault, or with none.
    pub(crate) fn with_fault(self, fault: Option<Fault>) -> SenderEnd
        ensures { result ≡ record self { fault = fault } }
    {
        SenderEnd { fault, ..self }
    }
}

/// Allocates the text of one packet, before a day starts: a sender without it could send no end, and subscribers would wait for
/// one.
pub(crate) fn room_for_a_packet(alloc: Global) -> Result<Vec<u8>, Fault> {
    Vec::with_capacity(alloc, LONGEST_PACKET).map_err(|_| Fault::Memory)
}

/// Sends bytes to each port of a line. A failed send is a lost packet.
fn send<L>(feed: &Feed<'_, L>, ports: &[u16], bytes: &[u8]) {
    for port in ports {
        let _ = feed.sender.send_to(bytes, here(*port));
    }
}

/// Sends bytes to the ports of both lines, without loss.
pub(crate) fn send_to_both<L>(feed: &Feed<'_, L>, bytes: &[u8]) {
    send(feed, feed.a, bytes);
    send(feed, feed.b, bytes);
}

/// Replaces `text` with a packet's bytes.
fn spell(packet: &Packet, text: &mut Vec<u8>) -> Result<(), Fault>
    ensures spelled { OnOk result (text.new.items ≡ packet_text packet.now) }
    ensures fault { IfErr result (λ fault. fault ≡ Memory) }
{
    text.clear();
    write_packet(packet, text).map_err(|_| Fault::Memory)
}

/// A number of entries as a packet says it.
fn count_of(number: u32) -> Result<EntryCount, Fault>
    ensures { IfOk result (λ count. count ≡ record { version = Two; count = number }) }
{
    match EntryCount::try_new(Version::Two, number) {
        Some(count) => Ok(count),
        None => Err(Fault::Disagrees),
    }
}

/// Sends the data packet of what is published from this number on to both lines, except those that lose it.
fn send_data<D: DayName, L: Loss>(
    feed: &Feed<'_, L>,
    published: &Published<'_, D>,
    from: u32,
    bytes: &[u8],
)
    requires { bytes.now ≡ data_text feed.now.session (shown published.now.tokens) from }
{
    // For the proof alone: only clauses speak of it.
    let _ = published;
    for (line, ports) in [(Line::A, feed.a), (Line::B, feed.b)] {
        if !feed.loss.drops(line, from) {
            send(feed, ports, bytes);
        }
    }
}

/// Cuts the packet of what is published from this number on, and sends it. Returns the number of its last entry. `text` is only
/// room, and holds what was sent afterwards.
fn send_from<D: DayName, L: Loss>(
    feed: &Feed<'_, L>,
    published: &Published<'_, D>,
    from: u32,
    text: &mut Vec<u8>,
) -> Result<u32, Fault>
    requires first { 1 ≤ from }
    requires within { from ≤ length (shown published.now.tokens) }
    requires source { IsPublished (shown published.now.tokens) }
    ensures sent { IfOk result (λ last. IsSent feed.now.session (shown published.now.tokens) from last text.new.items) }
    ensures last { IfOk result (λ last. (from ≤ last) × (last ≤ length (shown published.now.tokens))) }
    ensures fault { IfErr result (λ fault. fault ≡ Memory) }
{
    let packet = cut(Version::Two, feed.session, from, published);
    spell(&packet, text)?;
    send_data(feed, published, from, text);
    Ok(packet.last())
}

/// Publishes what the lines admitted, `PUBLISHED_AT_ONCE` entries at most, after it is kept in the journal, if there is one,
/// and sends a packet of what is published after this number. Returns the last number that was sent. `text` is only room, and
/// holds what was sent last.
fn send_next<D: DayName, R: Wait, L: Loss, J: JournalFile>(
    rt: &R,
    feed: &Feed<'_, L>,
    shared: &SharedTape<D>,
    keeper: &mut Option<Keeper<J>>,
    published: &mut Published<'_, D>,
    sent: u32,
    text: &mut Vec<u8>,
) -> Result<u32, Fault>
    requires sent { sent ≤ length (shown published.old.tokens) }
    requires kept { AllKept keeper.old (shown published.old.tokens) }
    ensures cells { published.new.names ≡ published.old.names }
    ensures kept { OnOk result (GoesOn published.old.tokens published.new.tokens) }
    ensures last { IfOk result (λ last. (sent ≤ last) × (last ≤ length (shown published.new.tokens))) }
    ensures nothing { IfOk result (λ last. last ≡ sent → sent ≡ length (shown published.new.tokens)) }
    ensures packet { IfOk result (λ last. sent < last → IsSent feed.now.session (shown published.new.tokens) (sent + 1) last text.new.items) }
    // Nothing is published that is not kept first.
    ensures journal { OnOk result (AllKept keeper.new (shown published.new.tokens)
        × Steps keeper.old (shown published.old.tokens) keeper.new (shown published.new.tokens)) }
    ensures failed { HasFailed keeper.new → HasFailed keeper.old ⊎ (result ≡ Err WriteFault) }
    ensures kept_back { result ≡ Err WriteFault → published.new ≡ published.old }
{
    let set = publish_next(rt, shared, keeper, published)?;
    if published.published() > sent {
        return send_from(feed, published, sent + 1, text);
    }
    if set > 0 {
        // Cells were set, but nothing more is seen in them.
        return Err(Fault::Disagrees);
    }
    Ok(sent)
}

/// Sends a beat to both lines, which says how many entries are published: all of them were sent. No line loses it. `text` is
/// only room, and holds the beat afterwards.
fn send_beat<D: DayName, L>(
    feed: &Feed<'_, L>,
    published: &Published<'_, D>,
    number: u32,
    text: &mut Vec<u8>,
) -> Result<(), Fault>
    requires { number ≡ length (shown published.now.tokens) }
    ensures { OnOk result (text.new.items ≡ beat_text feed.now.session (length (shown published.now.tokens))) }
{
    // For the proof alone: only clauses speak of it.
    let _ = published;
    let beat = Packet::Beat {
        session: feed.session,
        last: count_of(number)?,
    };
    spell(&beat, text)?;
    send_to_both(feed, text);
    Ok(())
}

/// Counts a packet that was sent at this time, and rests if the budget of its millisecond is spent. Returns the budget after
/// that.
fn keep_pace<R: Clock>(rt: &R, requested: &RequestFlag, now: u64, budget: Budget) -> Budget {
    let (budget, rest) = budget.at(now, requested.take()).after_packet(now);
    if rest > 0 {
        thread::sleep(rt, Duration::from_nanos(rest));
    }
    budget
}

/// Sleeps while there is nothing to send, until the bell rings or a beat is due, or sends the beat that is due. Returns since
/// when it has been quiet. No beat is sent before the first entry, since there is nothing that it could say.
fn keep_quiet<D: DayName, R: Wait + Clock, L>(
    rt: &R,
    feed: &Feed<'_, L>,
    published: &Published<'_, D>,
    number: u32,
    quiet: Quiet,
    text: &mut Vec<u8>,
) -> Result<Quiet, Fault>
    requires { number ≡ length (shown published.now.tokens) }
{
    if number == 0 {
        feed.bell.wait(rt);
        return Ok(quiet);
    }
    let now = nanos_of(rt);
    let left = quiet.left(now);
    if left > 0 {
        feed.bell.wait_within(rt, left);
        return Ok(quiet);
    }
    send_beat(feed, published, number, text)?;
    Ok(quiet.after_beat(now))
}

/// Publishes and sends until the lines have ended and all is sent. Returns the number of the last entry that was sent, and why
/// it did not go on to the last one. What a journal had was sent before, and is not sent again. In a millisecond of the clock
/// it sends as many packets as its followers take, and rests for what is left of it. While there is nothing to send it sleeps
/// until the bell rings, and sends a beat from time to time.
fn send_to_end<D: DayName, R: Wait + Clock, L: Loss, J: JournalFile>(
    rt: &R,
    feed: &Feed<'_, L>,
    shared: &SharedTape<D>,
    keeper: &mut Option<Keeper<J>>,
    requested: &RequestFlag,
    published: &mut Published<'_, D>,
    text: &mut Vec<u8>,
) -> (u32, Option<Fault>)
    requires sent { AllKept keeper.old (shown published.old.tokens) }
    ensures cells { published.new.names ≡ published.old.names }
    ensures whole { result.1 ≡ None → result.0 ≡ length (shown published.new.tokens) }
    ensures behind { length (shown published.old.tokens) ≤ result.0 }
    ensures journal { result.1 ≡ None → Grows keeper.old (shown published.old.tokens) keeper.new (shown published.new.tokens) }
    ensures failed { HasFailed keeper.new → HasFailed keeper.old ⊎ (result.1 ≡ Some WriteFault) }
{
    let mut number = published.published();
    let mut budget = Budget::first();
    let mut quiet = Quiet::after_data(0);
    for _ in rt.forever() {
        // Looked at first: what was admitted before the end is published after it.
        let is_last = feed.bell.has_ended();
        let last = match send_next(rt, feed, shared, keeper, published, number, text) {
            Ok(last) => last,
            Err(fault) => return (number, Some(fault)),
        };
        if last != number {
            number = last;
            let now = nanos_of(rt);
            quiet = Quiet::after_data(now);
            budget = keep_pace(rt, requested, now, budget);
        } else if is_last {
            return (number, None);
        } else {
            quiet = match keep_quiet(rt, feed, published, number, quiet, text) {
                Ok(quiet) => quiet,
                Err(met) => return (number, Some(met)),
            };
        }
    }
    unreachable!()
}

/// Begins where the journal ends, if there is one, and then publishes and sends as `send_to_end` does, with its result.
fn send_all<D: DayName, R: Wait + Clock, L: Loss, J: JournalFile>(
    rt: &R,
    feed: &Feed<'_, L>,
    shared: &SharedTape<D>,
    keeper: &mut Option<Keeper<J>>,
    requested: &RequestFlag,
    published: &mut Published<'_, D>,
    text: &mut Vec<u8>,
) -> (u32, Option<Fault>)
    requires { published.old.tokens ≡ [] }
    ensures cells { published.new.names ≡ published.old.names }
    ensures whole { result.1 ≡ None → result.0 ≡ length (shown published.new.tokens) }
    ensures journal { result.1 ≡ None → Runs keeper.old keeper.new (shown published.new.tokens) }
    ensures failed { HasFailed keeper.new → HasFailed keeper.old ⊎ (result.1 ≡ Some WriteFault) }
{
    match begin(keeper, published) {
        Ok(()) => send_to_end(rt, feed, shared, keeper, requested, published, text),
        Err(fault) => (0, Some(fault)),
    }
}

/// Sends the entries of the day while the lines admit them, and until they have ended and all is sent. After a fault the
/// connections are ended, and the reading of the lines if someone looks on. `text` is only room, and a packet that fits in it
/// allocates nothing.
pub(crate) fn send_entries<D: DayName, R: Wait + Clock, L: Loss, J: JournalFile>(
    rt: &R,
    feed: &Feed<'_, L>,
    shared: &SharedTape<D>,
    keeper: &mut Option<Keeper<J>>,
    serving: &Serving<'_>,
    text: &mut Vec<u8>,
) -> SenderEnd
    ensures first { FirstTokens shared.now result.tokens.items }
    ensures whole { result.fault ≡ None → length result.tokens.items ≡ result.number }
    ensures journal { result.fault ≡ None → Runs keeper.old keeper.new (shown result.tokens.items) }
    ensures failed { HasFailed keeper.new → HasFailed keeper.old ⊎ (result.fault ≡ Some WriteFault) }
{
    let mut published = Published::new(shared);
    let requested = &serving.requested;
    let (number, fault) = send_all(rt, feed, shared, keeper, requested, &mut published, text);
    if fault.is_some() {
        serving.stop_lines();
        serving.give_up(rt, feed.closing);
    }
    SenderEnd {
        tokens: published.into_sightings(),
        number,
        fault,
    }
}

/// Replaces `text` with the end of a day that was sent whole.
pub(crate) fn spell_end<L>(
    feed: &Feed<'_, L>,
    sent: &SenderEnd,
    text: &mut Vec<u8>,
) -> Result<(), Fault>
    requires whole { sent.now.fault ≡ None }
    requires many { length sent.now.tokens.items ≡ sent.now.number }
    ensures { OnOk result (text.new.items ≡ end_text feed.now.session sent.now.number) }
{
    let end = Packet::End {
        session: feed.session,
        count: count_of(sent.number)?,
    };
    spell(&end, text)
}

/// Sends the end of a day that was sent whole three times on each line, with a pause before each time. No line loses it.
pub(crate) fn send_first_ends<R: Clock, L>(rt: &R, feed: &Feed<'_, L>, sent: &SenderEnd, end: &[u8])
    requires whole { sent.now.fault ≡ None }
    requires many { length sent.now.tokens.items ≡ sent.now.number }
    requires end { end.now ≡ end_text feed.now.session sent.now.number }
{
    // For the proof alone: only clauses speak of it.
    let _ = sent;
    for pause in PAUSES_BEFORE_ENDS {
        thread::sleep(rt, Duration::from_millis(pause));
        send_to_both(feed, end);
    }
}

/// Sends the end of a day that was sent whole again and again while a connection is served or awaited, since its peer may have
/// missed those before. No line loses it.
fn repeat_end<R: Wait + Clock, L>(
    rt: &R,
    feed: &Feed<'_, L>,
    serving: &Serving<'_>,
    sent: &SenderEnd,
    end: &[u8],
)
    requires whole { sent.now.fault ≡ None }
    requires many { length sent.now.tokens.items ≡ sent.now.number }
    requires end { end.now ≡ end_text feed.now.session sent.now.number }
{
    // For the proof alone: only clauses speak of it.
    let _ = sent;
    for _ in rt.forever() {
        if !serving.is_left_after(rt, Duration::from_millis(PAUSE_BEFORE_LATER_END)) {
            return;
        }
        send_to_both(feed, end);
    }
}

/// Sends the end of a day that was sent whole. `text` is only room, and holds the end afterwards.
fn send_ends<R: Wait + Clock, L>(
    rt: &R,
    feed: &Feed<'_, L>,
    serving: &Serving<'_>,
    sent: &SenderEnd,
    text: &mut Vec<u8>,
) -> Result<(), Fault>
    requires whole { sent.now.fault ≡ None }
    requires many { length sent.now.tokens.items ≡ sent.now.number }
    ensures { OnOk result (text.new.items ≡ end_text feed.now.session sent.now.number) }
{
    spell_end(feed, sent, text)?;
    send_first_ends(rt, feed, sent, text);
    repeat_end(rt, feed, serving, sent, text);
    Ok(())
}

/// Sends the end of a day if neither its lines nor the sender met a fault. Else no end is sent, since a follower would take the
/// day for whole and reported: the connections are ended instead, and `text` is empty. `text` is only room, and a packet that
/// fits in it allocates nothing.
pub(crate) fn send_end<R: Wait + Clock, L>(
    rt: &R,
    feed: &Feed<'_, L>,
    serving: &Serving<'_>,
    sent: SenderEnd,
    lines: Option<Fault>,
    text: &mut Vec<u8>,
) -> SenderEnd
    requires whole { sent.fault ≡ None → length sent.tokens.items ≡ sent.number }
    ensures same { (result.tokens ≡ sent.tokens) × (result.number ≡ sent.number) }
    ensures met { ((sent.fault ≡ None) × (lines ≡ None)) ⊎ IsLeast (sent.fault ∷ lines ∷ []) result.fault }
    ensures end { result.fault ≡ None → text.new.items ≡ end_text feed.now.session result.number }
    ensures no_end { IsSome result.fault → text.new.items ≡ [] }
    ensures lines { IsSome lines → text.new.items ≡ [] }
{
    let met = Fault::least(sent.fault, lines);
    let sent = sent.with_fault(met);
    let fault = match met {
        None => send_ends(rt, feed, serving, &sent, text).err(),
        met => met,
    };
    if fault.is_some() {
        text.clear();
        serving.give_up(rt, feed.closing);
    }
    sent.with_fault(fault)
}
