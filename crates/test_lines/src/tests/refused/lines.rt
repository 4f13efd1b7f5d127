//! Tests lines that run out of memory, or are not started for lack of it.
ghost use Rattle.std.specs.Prelude.{◌≡◌};
ghost use Rattle.line_ledger.specs.Days.{terms_of};

use super::super::lines::run_inputs;
use super::{LENGTH, REPORTS, bytes_of, day, ended};
use line_ledger::{DayName, LineSeat, Prepared, SharedTape};
use participant_lines::{LineEnd, LineOutcome, run_line};
use std::alloc::Global;
use std::marker::Brand;
use std::process::Abort;
use std::sync::Wait;
use std::test::Fail;
use std::thread::Threads;
use tape_types::NoGate;

/// How many messages the seats were told of.
fn told<D: DayName>(seats: &[LineSeat<D>]) -> u32 {
    let mut many: u32 = 0;
    for seat in seats {
        many = many.wrapping_add(seat.count());
    }
    many
}

/// Runs the lines of a day, ends it, and returns how many messages its seats were told of, 0 if the day could not be opened.
/// The day has as many entries.
fn run_day<D: DayName + Send + Sync, T: Threads + Wait + Abort + Print + Sync>(
    rt: &T,
    alloc: Global,
    prepared: Prepared,
    inputs: &[Vec<u8>],
) -> u32
    requires name { prepared.blank.name ≡ D.name }
    requires parts { prepared.blank.parts ≡ D.parts }
    requires terms { terms_of prepared.tape ≡ D.terms }
{
    let Ok((shared, seats)) = SharedTape::<D>::open(prepared) else {
        return 0;
    };
    let (seats, ran) = run_inputs(rt, alloc, &shared, seats, inputs, &NoGate);
    if let Err(Some(why)) = ran {
        let _ = println!(rt; "not started: {why:?}");
    }
    let many = told(&seats);
    let (entries, _) = ended(rt, shared, seats);
    assert_eq!(rt; entries, many);
    many
}

/// The same of a day under a name of its own.
fn run_new_day<T: Threads + Wait + Abort + Print + Sync>(
    rt: &T,
    alloc: Global,
    prepared: Prepared,
    inputs: &[Vec<u8>],
) -> u32 {
    run_day::<Brand, T>(rt, alloc, prepared, inputs)
}

/// The bytes of N's line and of Q's.
fn inputs(alloc: Global) -> Option<[Vec<u8>; 2]> {
    Some([bytes_of(alloc, b'N')?, bytes_of(alloc, b'Q')?])
}

#[test]
fn each_seat_comes_back_where_memory_is_refused(rt: HostRuntime) -> Result<(), Fail> {
    let inputs = inputs(rt.alloc()).ok_or("bytes")?;
    let all = 2 * u32::from(REPORTS);
    let told = run_new_day(&rt, rt.alloc(), day(&rt, rt.alloc())?, &inputs);
    if told == all {
        return Ok(());
    }
    let again = run_new_day(&rt, rt.alloc(), day(&rt, rt.alloc())?, &inputs);
    assert_eq!(rt; again, all);
    let _ = println!(rt; "told of {told}, and then of all");
    Ok(())
}

/// Runs a line, goes on with the frame at which memory was refused, and returns the seat and how many messages it was told of
/// before.
fn run_again<D: DayName, W: Wait + Abort>(
    rt: &W,
    shared: &SharedTape<D>,
    seat: LineSeat<D>,
    bytes: &[u8],
) -> (LineSeat<D>, u32) {
    let mut reader = bytes;
    let LineEnd {
        seat,
        refused,
        ended,
    } = run_line(rt, shared, 0, seat, &mut reader, &NoGate);
    assert_eq!(rt; refused, 0);
    let told = seat.count();
    if ended == LineOutcome::Clean {
        return (seat, told);
    }
    assert_eq!(rt; ended, LineOutcome::OutOfMemory);
    let done = (told as usize).wrapping_mul(LENGTH);
    let mut reader = bytes.get(done..).unwrap_or(&[]);
    let LineEnd {
        seat,
        refused,
        ended,
    } = run_line(rt, shared, 0, seat, &mut reader, &NoGate);
    assert_eq!(rt; refused, 0);
    assert_eq!(rt; ended, LineOutcome::Clean);
    (seat, told)
}

/// Runs Q's line in a day, ends it, and returns how many messages the seat was told of before memory was refused, or `None` if
/// the day could not be opened.
fn run_line_in<D: DayName, W: Wait + Abort>(rt: &W, prepared: Prepared, bytes: &[u8]) -> Option<u32>
    requires name { prepared.blank.name ≡ D.name }
    requires parts { prepared.blank.parts ≡ D.parts }
    requires terms { terms_of prepared.tape ≡ D.terms }
{
    let Ok((shared, mut seats)) = SharedTape::<D>::open(prepared) else {
        return None;
    };
    let Some(seat) = seats.pop() else {
        panic!(rt; "there is no seat")
    };
    let (seat, told) = run_again(rt, &shared, seat, bytes);
    assert!(rt; seats.len() < seats.capacity());
    seats.push_reserved(seat);
    let (entries, _) = ended(rt, shared, seats);
    assert_eq!(rt; entries, u32::from(REPORTS));
    Some(told)
}

/// The same of a day under a name of its own.
fn run_line_in_a_day<W: Wait + Abort>(rt: &W, prepared: Prepared, bytes: &[u8]) -> Option<u32> {
    run_line_in::<Brand, W>(rt, prepared, bytes)
}

#[test]
fn a_line_goes_on_with_the_frame_at_which_memory_was_refused(rt: HostRuntime) -> Result<(), Fail> {
    let bytes = bytes_of(rt.alloc(), b'Q').ok_or("Q's bytes")?;
    let prepared = day(&rt, rt.alloc())?;
    let told = run_line_in_a_day(&rt, prepared, &bytes).ok_or("a day")?;
    if told < u32::from(REPORTS) {
        let _ = println!(rt; "a line again after {told}");
    }
    Ok(())
}
