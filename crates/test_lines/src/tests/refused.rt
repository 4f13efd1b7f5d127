//! Each test makes calls that allocate. If one of them runs out of memory, the test asserts what that left, and makes the call
//! again. Memory that only prepares a call is allocated with `?`: a test that gets none for it ends with an error, which is a
//! failure with ample memory. `tests/cases/test_refused.py` runs each test once for each of its allocations, with that one refused.

mod lines;
mod publications;

use super::days::{ended_day, report, tape_of_two};
use line_ledger::{DayName, LineSeat, OpenFault, Prepared, SharedTape, prepare};
use std::alloc::Global;
use std::process::Abort;
use std::test::Fail;

/// How many reports a participant has.
const REPORTS: u8 = 12;

/// How many bytes a report has.
const LENGTH: usize = 40;

/// The bytes of a participant's line.
fn bytes_of(alloc: Global, who: u8) -> Option<Vec<u8>> {
    let mut bytes = Vec::with_capacity(alloc, LENGTH * REPORTS as usize).ok()?;
    for number in 1..=REPORTS {
        bytes.extend_from_slice(&report(who, number)).ok()?;
    }
    Some(bytes)
}

/// The day of N and Q, prepared again if memory was refused for it.
fn day<A: Abort>(rt: &A, alloc: Global) -> Result<Prepared, Fail> {
    for _ in 0..2 {
        let tape = tape_of_two(alloc).ok_or("a tape")?;
        match prepare(alloc, tape) {
            Ok(prepared) => return Ok(prepared),
            Err(fault) => assert!(rt; fault == OpenFault::OutOfMemory),
        }
    }
    panic!(rt; "memory was refused twice")
}

/// How many entries the ended day has, and how many of them were found published at its end. Both seats are there, and it ends
/// without a fault.
fn ended<D: DayName, A: Abort>(
    rt: &A,
    shared: SharedTape<D>,
    seats: Vec<LineSeat<D>>,
) -> (u32, u32) {
    let Some(day) = ended_day(rt, shared, seats) else {
        panic!(rt; "the end disagrees")
    };
    (day.tape().entries().len() as u32, day.published())
}
