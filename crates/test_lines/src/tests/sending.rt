//! Lines that send reports, each in a thread.

use super::messages::{Sent, message};
use line_ledger::{DayName, LineSeat, SharedTape};
use std::sync::Wait;
use std::thread;
use std::thread::Threads;
use tape_types::Gate;

/// Sends `many` reports on a line, and publishes at most `most` entries after each. The gate is called after that.
fn send<D: DayName, G: Gate, R: Wait>(
    rt: &R,
    shared: &SharedTape<D>,
    line: usize,
    seat: &mut LineSeat<D>,
    (many, most): (u32, u32),
    gate: &G,
) {
    let who = seat.participant().value();
    for number in 1..=many {
        if let Some(report) = message(Sent::Report(who, number, 100_000)) {
            let _ = shared.admit(rt, seat, report);
        }
        let _ = shared.publish(rt, most);
        gate.between(line, number);
    }
}

/// Sends each line's count of reports, each line in a thread, and publishes at most `most` entries after each report, with the
/// gate after that.
pub(super) fn send_all<D: DayName + Send + Sync, G: Gate + Sync, R: Threads + Wait + Sync>(
    rt: &R,
    shared: &SharedTape<D>,
    seats: &mut Vec<LineSeat<D>>,
    counts: &[u32],
    most: u32,
    gate: &G,
) {
    let workers = seats.len();
    if workers == 0 {
        return;
    }
    let work = |line: usize, seat: &mut LineSeat<D>| {
        let many = counts.get(line).copied().unwrap_or(0);
        send(rt, shared, line, seat, (many, most), gate)
    };
    thread::for_each_mut(rt, seats.as_mut_slice(), workers, &work);
}
