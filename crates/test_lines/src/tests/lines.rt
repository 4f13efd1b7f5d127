//! Runs lines at once over bytes, and returns the outcome of each.
ghost use Rattle.std.specs.Prelude.{◌≡◌, ◌≤◌, [], vec_len};
ghost use Rattle.std.specs.Vec.{vec_capacity};
ghost use Rattle.line_ledger.specs.Days.{terms_of};

use super::days::ended_day;
use line_ledger::{Day, DayName, LineSeat, Prepared, SharedTape};
use participant_lines::{
    Lack, LineEnd, LineOutcome, Unstarted, run_lines, seats_of_ends, seats_of_lines,
};
use std::alloc::Global;
use std::io::BufRead;
use std::marker::Brand;
use std::process::Abort;
use std::sync::Wait;
use std::thread::Threads;
use tape_types::Gate;

/// A seat and the bytes of its line.
type Line<'a, D> = (LineSeat<D>, &'a [u8]);

/// The outcome of a line: how many frames were refused, why it ended, and how many messages its seat was told of, with their
/// sizes and the last number.
#[derive(Clone, Copy, Debug, PartialEq, Eq)]
pub(super) struct LineFigures {
    pub(super) refused: u32,
    pub(super) ended: LineOutcome,
    pub(super) count: u32,
    pub(super) sizes: u64,
    pub(super) last: u32,
}

/// Puts the seats with the bytes of their lines into a vector with room for them. A line without bytes has an empty input.
fn seated_lines<'a, D: DayName>(
    seats: Vec<LineSeat<D>>,
    lines: Vec<Line<'a, D>>,
    inputs: &'a [Vec<u8>],
) -> Vec<Line<'a, D>>
    requires room { vec_len seats ≤ vec_capacity lines }
    requires empty { lines.items ≡ [] }
{
    let mut lines = lines;
    let mut left = seats.into_iter();
    while let Some(seat) = left.next() {
        let bytes = input_of(inputs, lines.len());
        lines.push_reserved((seat, bytes));
    }
    left.destroy_empty();
    lines
}

/// The bytes of a line, or none if it has no input.
fn input_of(inputs: &[Vec<u8>], line: usize) -> &[u8] {
    match inputs.get(line) {
        Some(bytes) => bytes.as_slice(),
        None => &[],
    }
}

/// The outcome of an ended line.
fn line_figures<D: DayName>(end: &LineEnd<D>) -> LineFigures {
    LineFigures {
        refused: end.refused,
        ended: end.ended,
        count: end.seat.count(),
        sizes: end.seat.sizes(),
        last: end.seat.last(),
    }
}

/// The outcomes of ended lines, in their order.
fn all_figures<D: DayName>(alloc: Global, ends: &[LineEnd<D>]) -> Option<Vec<LineFigures>> {
    let mut figures = Vec::new(alloc);
    for end in ends {
        figures.push(line_figures(end)).ok()?;
    }
    Some(figures)
}

/// The lines' outcomes, or why none was started, unless memory ran out beside them.
pub(super) type Ran = Result<Vec<LineFigures>, Option<Lack>>;

/// Runs the lines at once, and returns the seats after it and the lines' outcomes.
fn run_all<
    D: DayName + Send + Sync,
    R: BufRead + Send + Drop,
    G: Gate + Sync,
    T: Threads + Wait + Sync,
>(
    rt: &T,
    alloc: Global,
    shared: &SharedTape<D>,
    lines: Vec<(LineSeat<D>, R)>,
    seats: Vec<LineSeat<D>>,
    gate: &G,
) -> (Vec<LineSeat<D>>, Ran)
    requires room { vec_len lines ≤ vec_capacity seats }
    requires empty { seats.items ≡ [] }
{
    match run_lines(rt, alloc, shared, lines, gate) {
        Ok(ends) => {
            let figures = all_figures(alloc, &ends).ok_or(None);
            (seats_of_ends(ends, seats), figures)
        }
        Err(Unstarted { ends, lines, why }) => {
            ends.destroy_empty();
            (seats_of_lines(lines, seats), Err(Some(why)))
        }
    }
}

/// Runs a line over each participant's bytes, all at once, and returns the seats after it and the lines' outcomes.
pub(super) fn run_inputs<
    D: DayName + Send + Sync,
    G: Gate + Sync,
    T: Threads + Wait + Abort + Sync,
>(
    rt: &T,
    alloc: Global,
    shared: &SharedTape<D>,
    seats: Vec<LineSeat<D>>,
    inputs: &[Vec<u8>],
    gate: &G,
) -> (Vec<LineSeat<D>>, Ran) {
    let Ok(lines) = Vec::with_capacity(alloc, inputs.len()) else {
        return (seats, Err(None));
    };
    let Ok(room) = Vec::with_capacity(alloc, inputs.len()) else {
        lines.destroy_empty();
        return (seats, Err(None));
    };
    assert!(rt; seats.len() <= lines.capacity());
    let lines = seated_lines(seats, lines, inputs);
    assert!(rt; lines.len() <= room.capacity());
    run_all(rt, alloc, shared, lines, room, gate)
}

/// Returns the same seats, taken back from lines that have no bytes and were not started. If memory runs out for the lines,
/// they are returned as they are.
pub(super) fn seats_taken_back<D: DayName, A: Abort>(
    rt: &A,
    alloc: Global,
    seats: Vec<LineSeat<D>>,
) -> Vec<LineSeat<D>> {
    let Ok(lines) = Vec::with_capacity(alloc, seats.len()) else {
        return seats;
    };
    let Ok(room) = Vec::with_capacity(alloc, seats.len()) else {
        lines.destroy_empty();
        return seats;
    };
    let lines = seated_lines(seats, lines, &[]);
    assert!(rt; lines.len() <= room.capacity());
    seats_of_lines(lines, room)
}

/// Returns the outcomes of the lines of a day, and the day.
fn day_after<D: DayName + Send + Sync, G: Gate + Sync, T: Threads + Wait + Abort + Sync>(
    rt: &T,
    alloc: Global,
    prepared: Prepared,
    inputs: &[Vec<u8>],
    gate: &G,
) -> Option<(Vec<LineFigures>, Day)>
    requires name { prepared.blank.name ≡ D.name }
    requires parts { prepared.blank.parts ≡ D.parts }
    requires terms { terms_of prepared.tape ≡ D.terms }
{
    let Ok((shared, seats)) = SharedTape::<D>::open(prepared) else {
        return None;
    };
    let (seats, ran) = run_inputs(rt, alloc, &shared, seats, inputs, gate);
    ran.ok().zip(ended_day(rt, shared, seats))
}

/// Returns the outcomes of a day's lines, one for each participant, in listing order and over these bytes, and the day that
/// they made. More participants than inputs stop the test.
pub(super) fn day_of_lines<G: Gate + Sync, T: Threads + Wait + Abort + Sync>(
    rt: &T,
    alloc: Global,
    prepared: Prepared,
    inputs: &[Vec<u8>],
    gate: &G,
) -> Option<(Vec<LineFigures>, Day)> {
    day_after::<Brand, G, T>(rt, alloc, prepared, inputs, gate)
}
