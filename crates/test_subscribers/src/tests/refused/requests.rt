//! Tests packets that are written, a window that is made, and requests that are served and asked.

use super::super::feed::{Feed, SESSION, equal_reports, packet_from};
use super::super::requests::{ENTRIES, REQUEST, request, requests, served};
use arbitration::Window;
use retransmit::{AskFault, Ended, ask};
use std::alloc::Global;
use std::process::Abort;
use std::test::Fail;
use tape_frames::{Request, Version, write_packet, write_request};

#[test]
fn a_packet_is_written_again(rt: HostRuntime) -> Result<(), Fail> {
    let alloc = rt.alloc();
    let tape = equal_reports(alloc, 30).ok_or("a tape")?;
    let packet = packet_from(Version::Two, &tape, SESSION, 9).ok_or("a packet")?;
    let mut text = Vec::from_elem(alloc, 7, 3)?;
    if write_packet(&packet, &mut text).is_err() {
        assert!(rt; text.as_slice() == [7, 7, 7].as_slice());
        let again = write_packet(&packet, &mut text);
        assert!(rt; again.is_ok());
    }
    assert!(rt; text.len() > 700);
    Ok(())
}

#[test]
fn a_window_is_made_again(rt: HostRuntime) {
    for _ in 0..2 {
        if let Ok(window) = Window::new(rt.alloc(), SESSION) {
            assert_eq!(rt; window.base(), 0);
            return;
        }
    }
    panic!(rt; "memory was refused twice")
}

/// Serves the requests, those after the answered ones again if memory was refused, and returns how many were answered before
/// that.
fn serve_twice<A: Abort>(
    rt: &A,
    alloc: Global,
    tape: &Feed,
    requests: &[u8],
    output: &mut Vec<u8>,
) -> Option<u32> {
    let first = served(alloc, Version::One, tape, &mut { requests }, output);
    if first.ended == Ended::Clean {
        return None;
    }
    assert!(rt; first.ended == Ended::OutOfMemory);
    let left = requests.get((first.served as usize).wrapping_mul(REQUEST)..);
    let again = served(
        alloc,
        Version::One,
        tape,
        &mut { left.unwrap_or(requests) },
        output,
    );
    assert!(rt; again.ended == Ended::Clean && again.served.wrapping_add(first.served) == 3);
    Some(first.served)
}

/// Serves the requests over the tape twice, once with memory throughout: both must write the same.
fn serves_again<A: Abort + Print>(
    rt: &A,
    alloc: Global,
    tape: &Feed,
    requests: &[u8],
) -> Option<()> {
    let mut output = Vec::with_capacity(alloc, 10_000).ok()?;
    let mut whole = Vec::with_capacity(alloc, 10_000).ok()?;
    if let Some(answered) = serve_twice(rt, alloc, tape, requests, &mut output) {
        let _ = println!(rt; "{answered} answers, and then all");
    }
    serve_twice(rt, alloc, tape, requests, &mut whole);
    let is_same = output == whole;
    assert!(rt; is_same);
    Some(())
}

#[test]
fn a_request_whose_answer_found_no_memory_is_served_again(rt: HostRuntime) -> Result<(), Fail> {
    let tape = equal_reports(rt.alloc(), ENTRIES).ok_or("a tape")?;
    let requests = requests().ok_or("requests")?;
    serves_again(&rt, rt.alloc(), &tape, &requests).ok_or("room for answers")?;
    Ok(())
}

/// How many packets the answer to a request has, or `None` if memory was refused, and then the request was written.
fn asks<A: Abort>(
    rt: &A,
    alloc: Global,
    asked: &Request,
    answer: &[u8],
    sent: &mut Vec<u8>,
) -> Option<usize> {
    let mut reader = answer;
    match ask(alloc, asked, &mut reader, sent) {
        Ok(packets) => Some(packets.len()),
        Err(fault) => {
            assert!(rt; fault == AskFault::OutOfMemory);
            assert_eq!(rt; sent.len(), REQUEST);
            None
        }
    }
}

/// Asks, again if memory was refused.
fn asks_again<A: Abort>(rt: &A, alloc: Global, asked: &Request, answer: &[u8]) -> Option<usize> {
    let mut sent = Vec::with_capacity(alloc, 64).ok()?;
    if let Some(packets) = asks(rt, alloc, asked, answer, &mut sent) {
        return Some(packets);
    }
    let again = asks(rt, alloc, asked, answer, &mut sent);
    assert!(rt; again.is_some());
    again
}

#[test]
fn an_answer_that_found_no_memory_is_asked_for_again(rt: HostRuntime) -> Result<(), Fail> {
    let alloc = rt.alloc();
    let tape = equal_reports(alloc, ENTRIES).ok_or("a tape")?;
    let asked = request(3, 10).ok_or("a request")?;
    let mut answer = Vec::with_capacity(alloc, 10_000)?;
    let text = write_request(&asked);
    let mut reader = text.as_slice();
    let end = served(alloc, Version::One, &tape, &mut reader, &mut answer);
    if end.ended != Ended::Clean {
        return Err("an answer".into());
    }
    let packets = asks_again(&rt, alloc, &asked, &answer).ok_or("room for a request")?;
    assert_eq!(rt; packets, 2);
    Ok(())
}
