//! Days of the symbols AB and CD and one, two or all participants, the bytes of their reports, and what an ended day confirms.
ghost use Rattle.std.specs.Prelude.{◌≡◌, IfSome};
ghost use Rattle.line_ledger.specs.Cells.{FirstTokens};

use line_ledger::{Day, DayName, EndFault, LineSeat, Prepared, SharedTape, Sighting, prepare};
use sale_matrix::Matrix;
use std::alloc::Global;
use std::process::Abort;
use tape_core::{IndexedTape, Tape};
use tape_types::{Listing, Participant, Symbol};

/// How many turns a line or a reader waits for others at most: some seconds, in which each of them gets to run.
pub(super) const TURNS: u32 = 10_000_000;

/// N's report 1 of 100 shares of AB at 10.00, out of sequence.
pub(super) const REPORT: [u8; 40] = [
    0x00, 0x26, 0x52, 0x4e, 0x00, 0x00, 0x00, 0x01, 0x00, 0x00, 0x00, 0x00, 0x00, 0x00, 0x00, 0x00,
    0x41, 0x42, 0x20, 0x20, 0x20, 0x20, 0x20, 0x20, 0x00, 0x00, 0x00, 0x00, 0x00, 0x01, 0x86, 0xa0,
    0x00, 0x00, 0x00, 0x64, 0x40, 0x20, 0x5a, 0x20,
];

/// The report with another participant and number.
pub(super) fn report(who: u8, number: u8) -> [u8; 40] {
    let mut bytes = REPORT;
    bytes[3] = who;
    bytes[7] = number;
    bytes
}

/// The report with another participant and number, at no price.
pub(super) fn without_price(who: u8, number: u8) -> [u8; 40] {
    let mut bytes = report(who, number);
    bytes[29] = 0;
    bytes[30] = 0;
    bytes[31] = 0;
    bytes
}

/// These reports, one after the other.
pub(super) fn joined(alloc: Global, reports: &[[u8; 40]]) -> Option<Vec<u8>> {
    let mut bytes = Vec::new(alloc);
    for report in reports {
        bytes.extend_from_slice(report).ok()?;
    }
    Some(bytes)
}

/// The symbols of a day. Each report is of the first.
pub(super) const SYMBOLS: [[u8; 8]; 2] = [*b"AB      ", *b"CD      "];

/// The empty tape of these participants.
fn tape_of(alloc: Global, participants: &[Participant]) -> Option<IndexedTape> {
    let symbols = [Symbol::try_new(SYMBOLS[0])?, Symbol::try_new(SYMBOLS[1])?];
    let listing = Listing::new(alloc, &symbols, participants).ok()?;
    Tape::new(alloc, listing, 30, Matrix::One).ok()
}

/// The day of these participants, which is empty.
fn day_of(alloc: Global, participants: &[Participant]) -> Option<Prepared> {
    prepare(alloc, tape_of(alloc, participants)?).ok()
}

/// The day of N alone, which is empty.
pub(super) fn day_of_one(alloc: Global) -> Option<Prepared> {
    day_of(alloc, &[Participant::try_new(b'N')?])
}

/// The empty tape of N and Q.
pub(super) fn tape_of_two(alloc: Global) -> Option<IndexedTape> {
    let participants = [Participant::try_new(b'N')?, Participant::try_new(b'Q')?];
    tape_of(alloc, &participants)
}

/// The day of N and Q, which is empty.
pub(super) fn day_of_two(alloc: Global) -> Option<Prepared> {
    prepare(alloc, tape_of_two(alloc)?).ok()
}

/// The day of all 26 participants, which is empty.
pub(super) fn day_of_all(alloc: Global) -> Option<Prepared> {
    let mut participants = Vec::new(alloc);
    for who in b'A'..=b'Z' {
        participants.push(Participant::try_new(who)?).ok()?;
    }
    day_of(alloc, &participants)
}

/// The ended day. A missing seat stops the test.
pub(super) fn ended_day<D: DayName, A: Abort>(
    rt: &A,
    shared: SharedTape<D>,
    seats: Vec<LineSeat<D>>,
) -> Option<Day>
    ensures { IfSome result (λ day. day.names ≡ shared) }
{
    match shared.end(seats) {
        Ok(day) => Some(day),
        Err(EndFault::Disagrees(_)) => None,
        Err(EndFault::MissingSeat(_unended)) => panic!(rt; "a seat is missing"),
    }
}

/// How many entries an ended day has, how many were published at its end, and how many of those that were seen it confirms.
pub(super) type Confirmed = (usize, u32, usize);

/// Returns what the day confirms.
pub(super) fn confirmed(day: &Day, tokens: &Vec<Sighting>) -> Confirmed
    requires { FirstTokens day.now.names tokens.now.items }
{
    let mut many: usize = 0;
    // There are at most as many as a tape has entries.
    let count = u32::try_from(tokens.len()).unwrap_or(0);
    for at in 0..count {
        if day.confirm_seen(at + 1, &tokens[at as usize]).is_ok() {
            many = many.saturating_add(1);
        }
    }
    (day.tape().entries().len(), day.published(), many)
}

/// Returns what the ended day confirms. A missing seat stops the test.
pub(super) fn confirmed_at_end<D: DayName, A: Abort>(
    rt: &A,
    shared: SharedTape<D>,
    seats: Vec<LineSeat<D>>,
    tokens: &Vec<Sighting>,
) -> Option<Confirmed>
    requires { FirstTokens shared tokens.now.items }
{
    let day = ended_day(rt, shared, seats)?;
    Some(confirmed(&day, tokens))
}
