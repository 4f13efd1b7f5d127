//! Tests the rows of a report, made by one worker and by three, and its text.

use super::days;
use day_report::{ReportFault, Row, rows, write_report};
use std::alloc::Global;
use std::process::Abort;
use std::test::Fail;
use std::thread::Threads;
use tape_core::IndexedTape;
use tape_types::NoGate;

/// The rows, which are made again if memory was refused for them, or for the thread that is started first.
fn made<T: Threads + Abort + Sync>(
    rt: &T,
    alloc: Global,
    tape: &IndexedTape,
    workers: usize,
) -> Vec<Row> {
    for _ in 0..2 {
        match rows(rt, alloc, tape, workers, &NoGate) {
            Ok(rows) => return rows,
            Err(fault) => {
                let is_thread = fault == ReportFault::Unstarted && workers > 1;
                assert!(rt; is_thread || fault == ReportFault::OutOfMemory);
            }
        }
    }
    panic!(rt; "memory was refused twice")
}

fn makes_rows<T: Threads + Abort + Sync>(
    rt: &T,
    alloc: Global,
    workers: usize,
) -> Result<(), Fail> {
    let tape = days::tape(alloc).ok_or("a tape")?;
    let rows = made(rt, alloc, &tape, workers);
    // Two symbols, and N and Q in each.
    assert_eq!(rt; rows.len(), 6);
    Ok(())
}

#[test]
fn one_worker_makes_its_rows_again(rt: HostRuntime) -> Result<(), Fail> {
    makes_rows(&rt, rt.alloc(), 1)
}

#[test]
fn three_workers_make_their_rows_again(rt: HostRuntime) -> Result<(), Fail> {
    makes_rows(&rt, rt.alloc(), 3)
}

/// How many lines the text of a report's rows has, which is written again if memory was refused. `None` if it was refused for
/// room.
fn lines_of<A: Abort>(rt: &A, alloc: Global, rows: &[Row]) -> Option<usize> {
    let mut text = Vec::with_capacity(alloc, 4_096).ok()?;
    if let Err(fault) = write_report(alloc, rows, &mut text) {
        assert!(rt; fault == ReportFault::OutOfMemory && text.is_empty());
        let again = write_report(alloc, rows, &mut text);
        assert!(rt; again.is_ok());
    }
    Some(text.iter().filter(|byte| **byte == b'\n').count())
}

#[test]
fn a_report_is_written_again(rt: HostRuntime) -> Result<(), Fail> {
    let tape = days::tape(rt.alloc()).ok_or("a tape")?;
    let rows = made(&rt, rt.alloc(), &tape, 1);
    let lines = lines_of(&rt, rt.alloc(), &rows).ok_or("room")?;
    assert_eq!(rt; lines, 7);
    Ok(())
}
