//! Tests a tape that is filled to a limit beyond the numbers of version 1's packets.

use super::super::steps::Kind::{Cancel, Correct, Reinstate, Report};
use super::super::steps::Step::{Consolidated, Sends};
use super::super::steps::Told::{Number, Shows};
use super::super::steps::{AB, Figures, Point, Step, Told, fills, listing_of, told_so};
use sale_matrix::Matrix;
use std::alloc::Global;
use tape_core::{IndexedTape, Tape};

/// The number of reports that stand on the tape before its first and its last one are corrected. The last ones have tape
/// numbers that no packet of version 1 has.
const REPORTS: u32 = 1_048_580;

/// The limit of the tape in entries: the reports, and what comes after them.
const LIMIT: u32 = 1_048_587;

/// After the corrections, the first report has the lowest price, and the last one the highest, with two hundred more shares.
const CORRECTED: Figures = Figures {
    opening: Some(Point(90_000, 1, b'N')),
    high: Some(Point(110_000, REPORTS, b'N')),
    low: Some(Point(90_000, 1, b'N')),
    last: Some(Point(110_000, REPORTS, b'N')),
    volume: 104_858_200,
    trades: REPORTS,
};

/// After the first and the last report are cancelled.
const CANCELLED: Figures = Figures {
    opening: Some(Point(100_000, 2, b'N')),
    high: Some(Point(100_000, 2, b'N')),
    low: Some(Point(100_000, 2, b'N')),
    last: Some(Point(100_000, 1_048_579, b'N')),
    volume: 104_857_800,
    trades: 1_048_578,
};

/// What comes after the reports, up to the last place of the tape and one beyond it.
const TO_THE_LIMIT: [(Step, Told); 11] = [
    (
        Sends(b'N', 1_048_581, AB, Correct(1, b"@   ", 90_000, 100)),
        Number(1_048_581),
    ),
    (
        Sends(b'N', 1_048_582, AB, Correct(REPORTS, b"@   ", 110_000, 300)),
        Number(1_048_582),
    ),
    (Consolidated, Shows(CORRECTED)),
    (Sends(b'N', 1_048_583, AB, Cancel(1)), Number(1_048_583)),
    (
        Sends(b'N', 1_048_584, AB, Cancel(REPORTS)),
        Number(1_048_584),
    ),
    (Consolidated, Shows(CANCELLED)),
    (Sends(b'N', 1_048_585, AB, Reinstate(1)), Number(1_048_585)),
    (
        Sends(b'N', 1_048_586, AB, Reinstate(REPORTS)),
        Number(1_048_586),
    ),
    (Consolidated, Shows(CORRECTED)),
    (
        Sends(b'N', 1_048_587, AB, Report(b"@   ", 100_000)),
        Number(LIMIT),
    ),
    (
        Sends(b'N', 1_048_588, AB, Report(b"@   ", 100_000)),
        Number(32),
    ),
];

/// Returns how many reports a tape takes, each with its own number, and how many of the steps after them it answers as
/// expected.
fn filled(tape: &mut IndexedTape) -> (u32, usize) {
    let taken = fills(tape, REPORTS);
    (taken, told_so(tape, &TO_THE_LIMIT))
}

/// Returns the same for a new tape whose limit is the last step's place.
fn filled_anew(alloc: Global) -> Option<(u32, usize)> {
    let listing = listing_of(alloc, &[AB], b"N")?;
    let mut tape = Tape::new(alloc, listing, LIMIT, Matrix::One).ok()?;
    Some(filled(&mut tape))
}

#[test]
fn a_full_tape_is_corrected_cancelled_and_reinstated_at_both_ends(rt: HostRuntime) {
    let filled = filled_anew(rt.alloc());
    assert_eq!(rt; filled, Some((REPORTS, TO_THE_LIMIT.len())));
}
