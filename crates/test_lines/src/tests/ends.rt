//! Tests how a line ends, and which turns its gate gets.
ghost use Rattle.std.specs.Prelude.{◌≡◌};
ghost use Rattle.line_ledger.specs.Days.{terms_of};

use super::days::{REPORT, day_of_one, joined, report, without_price};
use super::messages::Sent::{Cancel, CancelUnder, Reinstate, Report, ReportAs, ReportOf};
use super::messages::{CD, EF, Sent, bytes_of, ended_len, prepared_of};
use super::together::Meeting;
use line_ledger::{DayName, LineSeat, Prepared, SharedTape};
use participant_lines::{LineEnd, LineOutcome, run_line};
use std::alloc::Global;
use std::io;
use std::io::{BufRead, BufReader, ErrorKind, Read};
use std::marker::Brand;
use std::process::Abort;
use std::sync::Wait;
use tape_types::{Gate, NoGate};

/// What a seat was told of: how many messages, their sizes, and the last number.
type Told = (u32, u64, u32);

/// How a line ended: how many frames were refused, why it stopped, what the seat was told of, and how many entries the day has.
type Figures = (u32, LineOutcome, Told, usize);

/// Returns how a line ended, after its seat is back and the day has ended.
fn figures_at_end<D: DayName, A: Abort>(
    rt: &A,
    shared: SharedTape<D>,
    seats: Vec<LineSeat<D>>,
    end: LineEnd<D>,
) -> Option<Figures> {
    let LineEnd {
        seat,
        refused,
        ended,
    } = end;
    let told = (seat.count(), seat.sizes(), seat.last());
    let mut seats = seats;
    assert!(rt; seats.len() < seats.capacity());
    seats.push_reserved(seat);
    let entries = ended_len(rt, shared, seats)?;
    Some((refused, ended, told, entries))
}

/// How the last participant's line, as line 2, ends over this reader. A missing seat stops the test.
fn figures<D: DayName, R: BufRead, G: Gate, W: Wait + Abort>(
    rt: &W,
    prepared: Prepared,
    reader: &mut R,
    gate: &G,
) -> Option<Figures>
    requires name { prepared.blank.name ≡ D.name }
    requires parts { prepared.blank.parts ≡ D.parts }
    requires terms { terms_of prepared.tape ≡ D.terms }
{
    let Ok((shared, mut seats)) = SharedTape::<D>::open(prepared) else {
        return None;
    };
    let Some(seat) = seats.pop() else {
        panic!(rt; "there is no seat")
    };
    let end = run_line(rt, &shared, 2, seat, reader, gate);
    figures_at_end(rt, shared, seats, end)
}

/// How the last participant's line ends over this reader, in a prepared day.
fn end_of<R: BufRead, G: Gate, W: Wait + Abort>(
    rt: &W,
    prepared: Prepared,
    reader: &mut R,
    gate: &G,
) -> Option<Figures> {
    figures::<Brand, R, G, W>(rt, prepared, reader, gate)
}

/// How Q's line ends over these messages, in a day of N, P and Q of at most this many entries.
fn end_of_sent<W: Wait + Abort>(
    rt: &W,
    alloc: Global,
    limit: u32,
    sent: &[Sent],
) -> Option<Figures> {
    let bytes = bytes_of(alloc, sent)?;
    let mut reader = bytes.as_slice();
    end_of(rt, prepared_of(alloc, limit)?, &mut reader, &NoGate)
}

/// How N's line ends over these bytes.
fn end_of_bytes<W: Wait + Abort>(rt: &W, alloc: Global, bytes: &[u8]) -> Option<Figures> {
    let mut reader = bytes;
    end_of(rt, day_of_one(alloc)?, &mut reader, &NoGate)
}

/// How N's line ends over these frames.
fn end_of_frames<G: Gate, W: Wait + Abort>(
    rt: &W,
    alloc: Global,
    frames: &[[u8; 40]],
    gate: &G,
) -> Option<Figures> {
    let bytes = joined(alloc, frames)?;
    let mut reader = bytes.as_slice();
    end_of(rt, day_of_one(alloc)?, &mut reader, gate)
}

/// How N's line ends over the first bytes of two reports, this many.
fn end_of_front<W: Wait + Abort>(rt: &W, alloc: Global, len: usize) -> Option<Figures> {
    let bytes = joined(alloc, &[REPORT, REPORT])?;
    end_of_bytes(rt, alloc, bytes.get(..len)?)
}

/// A reader of these bytes that is interrupted before each read, fails once at their end, and has ended when it is read again.
#[derive(Drop)]
struct Failing<'a> {
    left: &'a [u8],
    is_interrupted: bool,
    has_failed: bool,
}

impl Read for Failing<'_> {
    fn read(&mut self, buf: &mut [u8]) -> io::Result<usize> {
        self.is_interrupted = !self.is_interrupted;
        if self.is_interrupted {
            return Err(io::Error::from(ErrorKind::Interrupted));
        }
        if self.left.is_empty() && !self.has_failed {
            self.has_failed = true;
            return Err(io::Error::from(ErrorKind::BrokenPipe));
        }
        self.left.read(buf)
    }
}

/// How N's line ends over the first bytes of two reports, this many, and a read that fails, each read interrupted first,
/// through a buffer of this size.
fn end_of_failing<W: Wait + Abort>(
    rt: &W,
    alloc: Global,
    len: usize,
    buffer: usize,
) -> Option<Figures> {
    let bytes = joined(alloc, &[REPORT, report(b'N', 2)])?;
    let failing = Failing {
        left: bytes.get(..len)?,
        is_interrupted: false,
        has_failed: false,
    };
    let mut reader = BufReader::with_capacity(alloc, buffer, failing).ok()?;
    end_of(rt, day_of_one(alloc)?, &mut reader, &NoGate)
}

#[test]
fn a_refused_frame_is_counted_and_is_a_turn(rt: HostRuntime) {
    let frames = [REPORT, without_price(b'N', 2), report(b'N', 3)];
    let alone = Meeting::of(1);
    assert_eq!(rt;
        end_of_frames(&rt, rt.alloc(), &frames, &alone),
        Some((1, LineOutcome::Clean, (2, 200, 3), 2))
    );
    assert_eq!(rt; alone.noted(), (1, [0, 0, 3]));
}

/// Messages that the tape refuses after a report of Q, with the number of the refusal.
const REFUSED: [(u8, Sent); 7] = [
    (33, Report(b'P', 2, 100_000)),
    (35, Report(b'Q', 1, 100_000)),
    (36, ReportOf(EF, b'Q', 2)),
    (37, Cancel(b'Q', 2, 9)),
    (38, CancelUnder(CD, b'Q', 2, 1)),
    (43, Reinstate(b'Q', 2, 1)),
    (44, ReportAs(b"@  2", b'Q', 2, 100_000, 100)),
];

#[test]
fn a_line_counts_what_the_tape_refuses_and_goes_on(rt: HostRuntime) {
    for (code, refused) in REFUSED {
        let sent = [Report(b'Q', 1, 100_000), refused, Report(b'Q', 3, 100_000)];
        assert_eq!(rt;
            end_of_sent(&rt, rt.alloc(), 10, &sent),
            Some((1, LineOutcome::Clean, (2, 200, 3), 2)),
            "refused {code}"
        );
    }
}

#[test]
fn a_line_goes_on_when_the_tape_is_full(rt: HostRuntime) {
    let sent = [
        Report(b'Q', 1, 100_000),
        Report(b'Q', 2, 100_000),
        Report(b'Q', 3, 100_000),
    ];
    assert_eq!(rt;
        end_of_sent(&rt, rt.alloc(), 1, &sent),
        Some((2, LineOutcome::Clean, (1, 100, 1), 1))
    );
}

#[test]
fn a_line_cancels_and_reinstates_its_report(rt: HostRuntime) {
    let sent = [
        Report(b'Q', 1, 100_000),
        Cancel(b'Q', 2, 1),
        Cancel(b'Q', 3, 1),
        Reinstate(b'Q', 4, 1),
    ];
    assert_eq!(rt;
        end_of_sent(&rt, rt.alloc(), 10, &sent),
        Some((1, LineOutcome::Clean, (3, 100, 4), 3))
    );
}

#[test]
fn a_line_brings_the_greatest_report(rt: HostRuntime) {
    let greatest = ReportAs(b"@   ", b'Q', 4_294_967_295, 999_999_999_999, 99_999_999);
    assert_eq!(rt;
        end_of_sent(&rt, rt.alloc(), 10, &[greatest]),
        Some((0, LineOutcome::Clean, (1, 99_999_999, 4_294_967_295), 1))
    );
}

#[test]
fn an_input_ends_its_line(rt: HostRuntime) {
    let alloc = rt.alloc();
    let ends = [
        end_of_bytes(&rt, alloc, &[]),
        end_of_bytes(&rt, alloc, &[0, 0]),
        end_of_front(&rt, alloc, 50),
        end_of_front(&rt, alloc, 41),
    ];
    let wanted = [
        Some((0, LineOutcome::Clean, (0, 0, 0), 0)),
        Some((0, LineOutcome::Oversize, (0, 0, 0), 0)),
        Some((0, LineOutcome::Truncated, (1, 100, 1), 1)),
        Some((0, LineOutcome::Truncated, (1, 100, 1), 1)),
    ];
    assert_eq!(rt; ends, wanted);
}

// A buffer of 16 bytes has no whole frame, and one of 64 has one of two.
#[test]
fn a_read_that_is_interrupted_is_tried_again_and_one_that_fails_ends_its_line(rt: HostRuntime) {
    for len in 0..81 {
        let many = len / 40;
        let count = many as u32;
        let told = (count, u64::from(count) * 100, count);
        let ends = [
            end_of_failing(&rt, rt.alloc(), len, 16),
            end_of_failing(&rt, rt.alloc(), len, 64),
        ];
        assert_eq!(rt; ends, [Some((0, LineOutcome::ReadFault, told, many)); 2]);
    }
}
