//! Tests a subscriber whose drains run out of memory: nothing is lost, and the next drain returns the rest of what was ready,
//! as a clause states.
ghost use Rattle.std.specs.Prelude.{◌≡◌, ◌+◌, IfSome, length};
ghost use Rattle.arbitration.specs.Windows.{ready_entries};

use super::super::feed::{self, Feed, SESSION, holds};
use arbitration::Line;
use reports::Message;
use sale_matrix::Matrix;
use std::alloc::Global;
use std::process::Abort;
use std::test::Fail;
use subscriber::{DeliveryFault, DrainFault, Stop, Subscriber};
use tape_core::{Refusal, TapeFault};
use tape_frames::Version;

/// The limit of the tape and of its subscriber in entries.
const LIMIT: u32 = 60;

/// Returns how many entries a drain returns, and how many the next one returns if it is out of memory: together all that was
/// ready, and as many more are held.
#[tactic(auto, using(crate::proofs::Ready::ready_of_one, crate::proofs::Ready::ready_of_two))]
fn drained_in_two(subscriber: &mut Subscriber) -> Option<(u32, u32)>
    ensures ready { IfSome result (λ drained. length (ready_entries subscriber.old.window.slots) ≡ drained.0 + drained.1) }
    ensures held { IfSome result (λ drained. length subscriber.new.tape.entries ≡ length subscriber.old.tape.entries + drained.0 + drained.1) }
{
    match subscriber.drain() {
        Ok(all) => Some((all, 0)),
        Err(
            DrainFault {
                drained,
                why: Stop::Refused(Refusal::OutOfMemory),
            },
        ) => {
            let more = subscriber.drain().ok()?;
            Some((drained, more))
        }
        Err(_) => None,
    }
}

/// The kinds of the tape's messages.
#[derive(Clone, Copy)]
enum Sent {
    /// Reports alone.
    Reports,
    /// Of each five in a row the first two are reports, the third corrects the first, the fourth cancels the second, and the
    /// fifth reinstates it. So a list of entries that grows at 4, 8, 16 and 32 does so at a reinstatement, a cancel, a report
    /// and a correction.
    EachKind,
}

impl Sent {
    /// The message at an index.
    fn message(self, index: u32) -> Option<Message> {
        let number = index.checked_add(1)?;
        let price = 100_000 + u64::from(index % 7);
        match (self, index % 5) {
            (Sent::EachKind, 2) => feed::correction(number, index.checked_sub(1)?, price),
            (Sent::EachKind, 3) => feed::cancel(number, index.checked_sub(1)?),
            (Sent::EachKind, 4) => feed::reinstatement(number, index.checked_sub(2)?),
            _ => feed::report(number, price),
        }
    }

    /// Admits `many` messages from an index on, and returns whether the tape took them.
    fn admits(self, tape: &mut Feed, first: u32, many: u32) -> bool {
        for index in first..first.saturating_add(many) {
            if !feed::admits(tape, self.message(index)) {
                return false;
            }
        }
        true
    }
}

/// Brings the tape's entries from a number on, as a packet, and returns how many of them are fresh.
fn bring(alloc: Global, tape: &Feed, subscriber: &mut Subscriber, from: u32) -> Option<u32> {
    let text = feed::packet(alloc, Version::One, tape, SESSION, from)?;
    match subscriber.deliver(Line::A, &text) {
        Ok(taken) => Some(taken.fresh),
        Err(DeliveryFault::NoPacket(_) | DeliveryFault::Refused(_) | DeliveryFault::Failed) => None,
    }
}

/// A subscriber, made again if memory was refused for it. `None` if memory was refused for its listing.
fn subscriber<A: Abort>(rt: &A, alloc: Global) -> Option<Subscriber> {
    for _ in 0..2 {
        let listing = feed::listing(alloc)?;
        match Subscriber::new(alloc, listing, LIMIT, SESSION, Matrix::One) {
            Ok(subscriber) => return Some(subscriber),
            Err(fault) => assert_eq!(rt; fault, TapeFault::OutOfMemory),
        }
    }
    panic!(rt; "memory was refused twice")
}

/// Drains this many entries that are ready, and prints how many two drains returned if the first was out of memory.
fn drain<A: Abort + Print>(rt: &A, subscriber: &mut Subscriber, ready: u32) {
    let Some((first, second)) = drained_in_two(subscriber) else {
        panic!(rt; "a drain stops where memory is there")
    };
    assert_eq!(rt; first.wrapping_add(second), ready);
    if second > 0 {
        let _ = println!(rt; "{first} drained, and then {second}");
    }
}

/// Sends `many` messages in one packet, and drains it. `None` if memory was refused that only prepares the drain.
fn turn<A: Abort + Print>(
    rt: &A,
    alloc: Global,
    tape: &mut Feed,
    subscriber: &mut Subscriber,
    sent: Sent,
    first: u32,
    many: u32,
) -> Option<()> {
    if !sent.admits(tape, first, many) {
        return None;
    }
    let ready = bring(alloc, tape, subscriber, first.checked_add(1)?)?;
    assert_eq!(rt; ready, many);
    drain(rt, subscriber, ready);
    assert_eq!(rt; holds(subscriber, tape), Some(true));
    Some(())
}

/// Takes this many turns.
fn turns<A: Abort + Print>(
    rt: &A,
    alloc: Global,
    tape: &mut Feed,
    subscriber: &mut Subscriber,
    sent: Sent,
    many: u32,
    turns: u32,
) -> Option<()> {
    for at in 0..turns {
        turn(
            rt,
            alloc,
            tape,
            subscriber,
            sent,
            at.wrapping_mul(many),
            many,
        )?;
    }
    Some(())
}

/// The turns of a new subscriber.
fn turns_of_new<A: Abort + Print>(
    rt: &A,
    alloc: Global,
    tape: &mut Feed,
    sent: Sent,
    many: u32,
    times: u32,
) -> Option<()> {
    let mut subscriber = subscriber(rt, alloc)?;
    turns(rt, alloc, tape, &mut subscriber, sent, many, times)
}

/// The same with a new tape.
fn drains_in_turns<A: Abort + Print>(
    rt: &A,
    alloc: Global,
    sent: Sent,
    many: u32,
    times: u32,
) -> Result<(), Fail> {
    let mut tape = feed::feed(alloc, LIMIT).ok_or("a tape")?;
    turns_of_new(rt, alloc, &mut tape, sent, many, times).ok_or("a drain")?;
    Ok(())
}

// Of the three that are ready in the second turn, only the second allocates.
#[test]
fn a_drain_out_of_memory_goes_on_where_it_stopped(rt: HostRuntime) -> Result<(), Fail> {
    drains_in_turns(&rt, rt.alloc(), Sent::Reports, 3, 2)
}

#[test]
fn messages_of_each_kind_are_drained_where_memory_was_refused(rt: HostRuntime) -> Result<(), Fail> {
    drains_in_turns(&rt, rt.alloc(), Sent::EachKind, 6, 10)
}
