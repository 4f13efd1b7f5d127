//! Tests what no clause states: that rows are made if there is memory, by workers that run at once, when the gate is called,
//! and the printed text.

use super::super::steps::Kind::Report;
use super::super::steps::Step::Sends;
use super::super::steps::Told::Number;
use super::super::steps::{Step, Told, listing_of, told_so};
use day_report::{ReportFault, Row, rows, write_report};
use sale_matrix::Matrix;
use std::alloc::Global;
use std::sync::atomic::{AtomicU32, Ordering};
use std::thread;
use std::thread::Threads;
use summaries::ScratchStore;
use tape_core::Tape;
use tape_types::{Gate, Listing, NoGate, Participant, Symbol};

/// The report of five symbols with a trade each, by Q.
pub(crate) const FIVE: &[u8] = b"\
symbol,who,open,open_at,high,high_at,low,low_at,last,last_at,volume,trades\n\
AB,ALL,10000,1,10000,1,10000,1,10000,1,100,1\n\
AB,Q,10000,1,10000,1,10000,1,10000,1,100,1\n\
CD,ALL,20000,2,20000,2,20000,2,20000,2,100,1\n\
CD,Q,20000,2,20000,2,20000,2,20000,2,100,1\n\
EF,ALL,30000,3,30000,3,30000,3,30000,3,100,1\n\
EF,Q,30000,3,30000,3,30000,3,30000,3,100,1\n\
GH,ALL,40000,4,40000,4,40000,4,40000,4,100,1\n\
GH,Q,40000,4,40000,4,40000,4,40000,4,100,1\n\
IJ,ALL,50000,5,50000,5,50000,5,50000,5,100,1\n\
IJ,Q,50000,5,50000,5,50000,5,50000,5,100,1\n";

/// A report by Q in each of five symbols, priced at as many dollars as its number.
const REPORTS: [(Step, Told); 5] = [
    (
        Sends(b'Q', 1, b"AB      ", Report(b"@   ", 10_000)),
        Number(1),
    ),
    (
        Sends(b'Q', 2, b"CD      ", Report(b"@   ", 20_000)),
        Number(2),
    ),
    (
        Sends(b'Q', 3, b"EF      ", Report(b"@   ", 30_000)),
        Number(3),
    ),
    (
        Sends(b'Q', 4, b"GH      ", Report(b"@   ", 40_000)),
        Number(4),
    ),
    (
        Sends(b'Q', 5, b"IJ      ", Report(b"@   ", 50_000)),
        Number(5),
    ),
];

/// Returns a listing of five symbols and two participants.
fn listing(alloc: Global) -> Option<Listing> {
    listing_of(
        alloc,
        &[
            b"AB      ",
            b"CD      ",
            b"EF      ",
            b"GH      ",
            b"IJ      ",
        ],
        b"NQ",
    )
}

/// Returns a tape of five symbols without a report.
fn empty(alloc: Global) -> Option<Tape<ScratchStore>> {
    Tape::new(alloc, listing(alloc)?, 10, Matrix::One).ok()
}

/// Sends the five reports to a tape and returns its rows, which `workers` workers make with a gate.
fn made_of<R: Threads + Sync, G: Gate + Sync>(
    rt: &R,
    alloc: Global,
    tape: &mut Tape<ScratchStore>,
    workers: usize,
    gate: &G,
) -> Option<Result<Vec<Row>, ReportFault>> {
    if told_so(tape, &REPORTS) != REPORTS.len() {
        return None;
    }
    Some(rows(rt, alloc, tape, workers, gate))
}

/// Returns the same for a new tape.
pub(crate) fn made<R: Threads + Sync, G: Gate + Sync>(
    rt: &R,
    alloc: Global,
    workers: usize,
    gate: &G,
) -> Option<Result<Vec<Row>, ReportFault>> {
    made_of(rt, alloc, &mut empty(alloc)?, workers, gate)
}

/// Returns whether the text of the rows is `wanted`.
fn is_spelled(alloc: Global, rows: &[Row], wanted: &[u8]) -> bool {
    let mut text = Vec::new(alloc);
    write_report(alloc, rows, &mut text).is_ok() && text.as_slice() == wanted
}

/// Returns whether `workers` workers make the report's text.
fn is_text_made<R: Threads + Sync>(rt: &R, alloc: Global, workers: usize) -> bool {
    match made(rt, alloc, workers, &NoGate) {
        Some(Ok(rows)) => is_spelled(alloc, rows.as_slice(), FIVE),
        _ => false,
    }
}

#[test]
fn every_number_of_workers_makes_the_same_bytes(rt: HostRuntime) {
    for workers in [1, 2, 64] {
        assert!(rt; is_text_made(&rt, rt.alloc(), workers), "{workers} workers");
    }
}

/// Returns the fault of making the rows with `workers` workers.
fn fault<R: Threads + Sync>(rt: &R, alloc: Global, workers: usize) -> Option<ReportFault> {
    made(rt, alloc, workers, &NoGate)?.err()
}

#[test]
fn no_worker_and_one_too_many_are_refused(rt: HostRuntime) {
    for workers in [0, 65, usize::MAX] {
        let fault = fault(&rt, rt.alloc(), workers);
        assert_eq!(rt; fault, Some(ReportFault::BadWorkers));
    }
}

/// The greatest number of turns that a worker waits.
const TURNS: u32 = 100_000_000;

/// Holds each of the first two or three workers after its first symbol until the others' first symbols are done.
#[derive(Drop)]
struct Meeting {
    workers: usize,
    done: [AtomicU32; 3],
    met: AtomicU32,
}

impl Meeting {
    /// Makes a meeting of `workers` workers, none of which has arrived.
    fn of(workers: usize) -> Self {
        Meeting {
            workers,
            done: [AtomicU32::new(0), AtomicU32::new(0), AtomicU32::new(0)],
            met: AtomicU32::new(0),
        }
    }

    /// Returns whether the first symbol of this worker is done, or the worker is not awaited.
    fn is_done(&self, worker: usize) -> bool {
        match self.done.get(worker) {
            Some(done) if worker < self.workers => done.load(Ordering::SeqCst) == 1,
            _ => true,
        }
    }
}

impl Gate for Meeting {
    fn between(&self, worker: usize, turn: u32) {
        if worker > 2 || turn != 1 {
            return;
        }
        self.done[worker].store(1, Ordering::SeqCst);
        for _ in 0..TURNS {
            if self.is_done(0) && self.is_done(1) && self.is_done(2) {
                self.met.fetch_add(1, Ordering::SeqCst);
                return;
            }
            thread::yield_now();
        }
    }
}

/// Returns how many of `workers` workers met, and how many rows they made.
fn meeting_of<R: Threads + Sync>(rt: &R, alloc: Global, workers: usize) -> (u32, usize) {
    let meeting = Meeting::of(workers);
    match made(rt, alloc, workers, &meeting) {
        Some(Ok(rows)) => (meeting.met.load(Ordering::SeqCst), rows.len()),
        _ => (0, 0),
    }
}

#[test]
fn workers_run_at_once(rt: HostRuntime) {
    assert_eq!(rt; meeting_of(&rt, rt.alloc(), 2), (2, 10));
    assert_eq!(rt; meeting_of(&rt, rt.alloc(), 3), (3, 10));
}

/// A gate that counts its calls and those of workers other than the first, and adds up the turns that it is told.
#[derive(Drop)]
struct Count {
    calls: AtomicU32,
    others: AtomicU32,
    turns: AtomicU32,
}

impl Gate for Count {
    fn between(&self, worker: usize, turn: u32) {
        self.calls.fetch_add(1, Ordering::SeqCst);
        if worker != 0 {
            self.others.fetch_add(1, Ordering::SeqCst);
        }
        self.turns.fetch_add(turn, Ordering::SeqCst);
    }
}

/// Returns how often `workers` workers called the gate while they made the rows of a tape, and how many rows they made, or
/// `None` if the turns do not add up as those of two workers that each count their own symbols from 1, or if a single worker
/// had another number than 0.
fn calls<R: Threads + Sync>(
    rt: &R,
    alloc: Global,
    tape: &Tape<ScratchStore>,
    workers: usize,
) -> Option<(u32, usize)> {
    let count = Count {
        calls: AtomicU32::new(0),
        others: AtomicU32::new(0),
        turns: AtomicU32::new(0),
    };
    let rows = rows(rt, alloc, tape, workers, &count).ok()?;
    let calls = count.calls.load(Ordering::SeqCst);
    let others = count.others.load(Ordering::SeqCst);
    let turns = up_to(calls.checked_sub(others)?).checked_add(up_to(others))?;
    if count.turns.load(Ordering::SeqCst) != turns || (workers == 1 && others != 0) {
        return None;
    }
    Some((calls, rows.len()))
}

/// Returns the sum of the numbers from 1 to `most`.
fn up_to(most: u32) -> u32 {
    most.saturating_mul(most.saturating_add(1)) / 2
}

/// Returns a tape of a hundred symbols, `A0` to `J9`, without a report.
fn hundred(alloc: Global) -> Option<Tape<ScratchStore>> {
    let mut symbols = Vec::new(alloc);
    for index in 0..100u8 {
        let (letter, digit) = (b'A' + index / 10, b'0' + index % 10);
        let name = [letter, digit, b' ', b' ', b' ', b' ', b' ', b' '];
        symbols.push(Symbol::try_new(name)?).ok()?;
    }
    let participant = Participant::try_new(b'N')?;
    let listing = Listing::new(alloc, &symbols, &[participant]).ok()?;
    Tape::new(alloc, listing, 1, Matrix::One).ok()
}

/// Returns `calls` of the tape of a hundred symbols, of which two workers have more than one in a piece.
fn calls_of_hundred<R: Threads + Sync>(
    rt: &R,
    alloc: Global,
    workers: usize,
) -> Option<(u32, usize)> {
    calls(rt, alloc, &hundred(alloc)?, workers)
}

#[test]
fn the_gate_is_called_after_each_symbol(rt: HostRuntime) {
    for workers in [1, 2] {
        assert_eq!(rt;
            calls_of_hundred(&rt, rt.alloc(), workers),
            Some((100, 100)),
            "{workers} workers"
        );
    }
}
