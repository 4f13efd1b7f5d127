//! Tests how the longest answer is written, the most requests, and a feed of many full windows.

use super::feed::{self, Feed, SESSION, holds, subscriber};
use super::requests::{request, served};
use arbitration::{Line, Taken};
use batch::{BatchEnd, batch_over};
use retransmit::Ended;
use sale_matrix::Matrix;
use std::alloc::Global;
use std::io;
use std::io::{Read, Write};
use std::test::Fail;
use subscriber::Subscriber;
use tape_frames::{Request, Version, write_request};

/// A writer that takes everything, and counts its calls and their bytes.
#[derive(Drop)]
struct Calls {
    writes: u32,
    flushes: u32,
    bytes: usize,
    /// How many writes stood before the last flush.
    flushed: u32,
}

impl Calls {
    /// A writer without calls so far.
    fn new() -> Self {
        Calls {
            writes: 0,
            flushes: 0,
            bytes: 0,
            flushed: 0,
        }
    }
}

impl Write for Calls {
    fn write(&mut self, buf: &[u8]) -> io::Result<usize> {
        self.writes = self.writes.saturating_add(1);
        self.bytes = self.bytes.saturating_add(buf.len());
        Ok(buf.len())
    }

    fn flush(&mut self) -> io::Result<()> {
        self.flushes = self.flushes.saturating_add(1);
        self.flushed = self.writes;
        Ok(())
    }
}

/// Whether a request is answered over the tape, and how many writes, flushes and bytes that takes.
fn calls_over(
    alloc: Global,
    version: Version,
    tape: &Feed,
    asked: &Request,
) -> (bool, u32, u32, usize) {
    let text = write_request(asked);
    let mut reader = text.as_slice();
    let mut writer = Calls::new();
    let end = served(alloc, version, tape, &mut reader, &mut writer);
    let is_answered = end.served == 1 && end.ended == Ended::Clean;
    (is_answered, writer.writes, writer.flushes, writer.bytes)
}

/// The same for the most entries, each of which is a correction.
fn calls_of_the_longest(alloc: Global, version: Version) -> Option<(bool, u32, u32, usize)> {
    let tape = feed::corrected_often(alloc)?;
    Some(calls_over(alloc, version, &tape, &request(2, 64)?))
}

#[test]
fn the_longest_answer_is_one_write_and_one_flush(rt: HostRuntime) {
    for (version, bytes) in [(Version::One, 7_370), (Version::Two, 7_302)] {
        assert_eq!(rt;
            calls_of_the_longest(rt.alloc(), version),
            Some((true, 1, 1, bytes))
        );
    }
}

#[test]
fn a_batchs_answers_leave_in_large_pieces_and_are_flushed_once(rt: HostRuntime) {
    // The answers to 2,000 empty lines have 38,000 bytes: four pieces and a rest. The report is a piece of its own.
    let mut reader = b"AB\nN\n".as_slice().chain(io::repeat(b'\n').take(2_000));
    let mut writer = Calls::new();
    let end = batch_over(&rt, rt.alloc(), Matrix::One, &mut reader, &mut writer);
    assert_eq!(rt; end, BatchEnd::Done);
    assert_eq!(rt; (writer.writes, writer.flushes, writer.flushed), (6, 1, 6));
}

#[test]
fn no_more_than_the_most_requests_are_answered(rt: HostRuntime) -> Result<(), Fail> {
    let tape = feed::equal_reports(rt.alloc(), 0).ok_or("a tape")?;
    let mut reader = io::repeat(0).take(14 * 65_537);
    let mut output = Vec::new(rt.alloc());
    let end = served(rt.alloc(), Version::One, &tape, &mut reader, &mut output);
    assert!(rt; end.served == 65_536 && end.ended == Ended::TooMany);
    // Each answer is that the count is none.
    assert!(rt; output.len() == 65_536 && output.iter().all(|byte| *byte == 0x49));
    Ok(())
}

/// Sixteen entries that are new.
const FRESH: Taken = Taken {
    fresh: 16,
    repeated: 0,
    beyond: 0,
};

/// Whether line A brings sixteen entries of the tape from a number on, and all are fresh.
fn comes(alloc: Global, subscriber: &mut Subscriber, tape: &Feed, from: u32) -> Option<bool> {
    let text = feed::packet(alloc, Version::Two, tape, SESSION, from)?;
    Some(subscriber.deliver(Line::A, &text) == Ok(FRESH))
}

/// Whether line A brings as many entries of the tape above a number as a window has slots, and all are fresh.
fn fills(alloc: Global, subscriber: &mut Subscriber, tape: &Feed, base: u32) -> bool {
    for place in 0..64_u32 {
        let from = base.wrapping_add(place.wrapping_mul(16)).wrapping_add(1);
        if comes(alloc, subscriber, tape, from) != Some(true) {
            return false;
        }
    }
    true
}

/// Whether line A fills the window above a number, and one drain returns all of it.
fn is_drained(alloc: Global, subscriber: &mut Subscriber, tape: &Feed, base: u32) -> bool {
    fills(alloc, subscriber, tape, base) && subscriber.drain() == Ok(1_024)
}

/// How many full windows are drained in turn.
fn drained(alloc: Global, subscriber: &mut Subscriber, tape: &Feed, windows: u32) -> u32 {
    for window in 0..windows {
        if !is_drained(alloc, subscriber, tape, window.wrapping_mul(1_024)) {
            return window;
        }
    }
    windows
}

/// How many of this many full windows a new subscriber drains, and whether it then holds the whole tape.
fn drained_anew(alloc: Global, tape: &Feed, windows: u32) -> Option<(u32, bool)> {
    let mut subscriber = subscriber(alloc, 200_000)?;
    let drained = drained(alloc, &mut subscriber, tape, windows);
    Some((drained, holds(&subscriber, tape)?))
}

/// The same for a tape of this many reports.
fn full_windows(alloc: Global, windows: u32) -> Option<(u32, bool)> {
    let tape = feed::reports(alloc, windows.wrapping_mul(1_024), 100_000)?;
    drained_anew(alloc, &tape, windows)
}

#[test]
fn a_hundred_thousand_entries_are_drained(rt: HostRuntime) {
    assert_eq!(rt; full_windows(rt.alloc(), 98), Some((98, true)));
}
