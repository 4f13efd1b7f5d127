//! Tests requests whose reader or writer fails, on the side that serves and on the side that asks.

use super::super::feed::{Feed, equal_reports};
use super::super::requests::{ENTRIES, REQUEST, request, requests, served};
use super::fails_at::FailsAt;
use super::{MOST, met_faults};
use retransmit::{AskFault, Ended, ask};
use std::alloc::Global;
use std::process::Abort;
use std::test::Fail;
use tape_frames::{Request, Version, write_request};

/// How many bytes the answers to the first none, one, two and three requests have.
const ANSWERED: [usize; 4] = [0, 476, 477, 628];

/// The answers to the requests.
fn answers(alloc: Global, tape: &Feed, asked: &[u8]) -> Option<Vec<u8>> {
    let mut text = Vec::new(alloc);
    let mut reader = asked;
    let end = served(alloc, Version::One, tape, &mut reader, &mut text);
    (end.ended == Ended::Clean && text.len() == ANSWERED[3]).then_some(text)
}

/// The answers to the first `many` requests.
fn front(text: &[u8], many: u32) -> &[u8] {
    match ANSWERED.get(many as usize) {
        Some(length) => text.get(..*length).unwrap_or(text),
        None => text,
    }
}

/// Whether the read of this number failed. Only the answers to the served requests were written.
fn serving_fails_at_read<A: Abort>(
    rt: &A,
    alloc: Global,
    tape: &Feed,
    asked: &[u8],
    text: &[u8],
    at: u32,
) -> bool {
    let mut reader = FailsAt::new(asked, 4, at);
    let mut output = Vec::new(alloc);
    let end = served(alloc, Version::One, tape, &mut reader, &mut output);
    assert!(rt; output.as_slice() == front(text, end.served), "read {at}");
    let (ended, is_failed) = match reader.has_failed() {
        true => (Ended::ReadFault, true),
        false => (Ended::Clean, false),
    };
    assert!(rt;
        end.ended == ended && (is_failed || end.served == 3),
        "read {at}"
    );
    is_failed
}

/// Whether the write or the flush of this number failed. If so, the answers to the served requests were written, and a prefix
/// of the next one.
fn serving_fails_at_write<A: Abort>(
    rt: &A,
    alloc: Global,
    tape: &Feed,
    asked: &[u8],
    text: &[u8],
    at: u32,
) -> bool {
    let mut reader = asked;
    let mut writer = FailsAt::new(Vec::new(alloc), 50, at);
    let end = served(alloc, Version::One, tape, &mut reader, &mut writer);
    let written = writer.inner.as_slice();
    if writer.has_failed() {
        let next = front(text, end.served.wrapping_add(1));
        assert!(rt; end.ended == Ended::WriteFault, "write {at}");
        assert!(rt;
            written.starts_with(front(text, end.served)) && next.starts_with(written),
            "write {at}"
        );
        return true;
    }
    assert!(rt; end.ended == Ended::Clean && written == text);
    false
}

/// The number of the run that meets no failed read, or the most.
fn first_read_served<A: Abort>(
    rt: &A,
    alloc: Global,
    tape: &Feed,
    asked: &[u8],
    text: &[u8],
) -> u32 {
    for at in 1..MOST {
        if !serving_fails_at_read(rt, alloc, tape, asked, text, at) {
            return at;
        }
    }
    MOST
}

/// The same for writes.
fn first_written<A: Abort>(rt: &A, alloc: Global, tape: &Feed, asked: &[u8], text: &[u8]) -> u32 {
    for at in 1..MOST {
        if !serving_fails_at_write(rt, alloc, tape, asked, text, at) {
            return at;
        }
    }
    MOST
}

#[test]
fn serving_ends_at_each_failed_read_or_write(rt: HostRuntime) -> Result<(), Fail> {
    let tape = equal_reports(rt.alloc(), ENTRIES).ok_or("a tape")?;
    let asked = requests().ok_or("requests")?;
    let text = answers(rt.alloc(), &tape, &asked).ok_or("a text")?;
    met_faults(
        &rt,
        first_read_served(&rt, rt.alloc(), &tape, &asked, &text),
    );
    met_faults(&rt, first_written(&rt, rt.alloc(), &tape, &asked, &text));
    Ok(())
}

/// Whether the read of this number failed. The request was written whole.
fn asking_fails_at_read<A: Abort>(
    rt: &A,
    alloc: Global,
    asked: &Request,
    answer: &[u8],
    at: u32,
) -> bool {
    let mut reader = FailsAt::new(answer, 50, at);
    let mut sent = Vec::new(alloc);
    let packets = ask(alloc, asked, &mut reader, &mut sent);
    assert!(rt;
        sent.as_slice() == write_request(asked).as_slice(),
        "read {at}"
    );
    if reader.has_failed() {
        assert!(rt; packets.err() == Some(AskFault::ReadFault), "read {at}");
        return true;
    }
    assert!(rt; packets.is_ok());
    false
}

/// Whether the write or the flush of this number failed. If so, a prefix of the request was written, and nothing was read.
fn asking_fails_at_write<A: Abort>(
    rt: &A,
    alloc: Global,
    asked: &Request,
    answer: &[u8],
    at: u32,
) -> bool {
    let mut reader = answer;
    let mut writer = FailsAt::new(Vec::new(alloc), 3, at);
    let packets = ask(alloc, asked, &mut reader, &mut writer);
    assert!(rt;
        write_request(asked).starts_with(&writer.inner),
        "write {at}"
    );
    if writer.has_failed() {
        assert!(rt; packets.err() == Some(AskFault::WriteFault), "write {at}");
        assert_eq!(rt; reader.len(), answer.len(), "write {at}");
        return true;
    }
    assert!(rt; packets.is_ok() && writer.inner.len() == REQUEST);
    false
}

/// The number of the run that meets no failed read, or the most.
fn first_read_asked<A: Abort>(rt: &A, alloc: Global, asked: &Request, answer: &[u8]) -> u32 {
    for at in 1..MOST {
        if !asking_fails_at_read(rt, alloc, asked, answer, at) {
            return at;
        }
    }
    MOST
}

/// The same for writes.
fn first_sent<A: Abort>(rt: &A, alloc: Global, asked: &Request, answer: &[u8]) -> u32 {
    for at in 1..MOST {
        if !asking_fails_at_write(rt, alloc, asked, answer, at) {
            return at;
        }
    }
    MOST
}

#[test]
fn asking_ends_at_each_failed_read_or_write(rt: HostRuntime) -> Result<(), Fail> {
    let tape = equal_reports(rt.alloc(), ENTRIES).ok_or("a tape")?;
    let requests = requests().ok_or("requests")?;
    let text = answers(rt.alloc(), &tape, &requests).ok_or("a text")?;
    let asked = request(3, 10).ok_or("a request")?;
    met_faults(
        &rt,
        first_read_asked(&rt, rt.alloc(), &asked, front(&text, 1)),
    );
    met_faults(&rt, first_sent(&rt, rt.alloc(), &asked, front(&text, 1)));
    Ok(())
}
