//! Tests days over sockets with their followers: what both lines lose comes by retransmission, a follower starts again, and the
//! reports are equal.

use super::day::{Lossy, Plan, Played, play};
use super::rows_of;
use crate::{Loss, NoLoss};
use arbitration::Line;
use sale_matrix::Matrix;
use std::process::Abort;
use std::sync::atomic::{AtomicU32, Ordering};

/// The beginning of each report's rows: the first symbol has no trade.
const FIRST_ROWS: &[u8] = b"\
CD,ALL,,,,,,,,,0,0\n\
AB,ALL,";

/// The rows of a day without a message.
const EMPTY_ROWS: &[u8] = b"\
CD,ALL,,,,,,,,,0,0\n\
AB,ALL,,,,,,,,,0,0\n";

/// Loses as `Lossy` does, and counts how many packets came by each line, and how many by neither.
#[derive(Drop)]
struct Counted {
    /// The packets that the loss was asked about for line B, the second one.
    packets: AtomicU32,
    by_a: AtomicU32,
    by_b: AtomicU32,
    by_neither: AtomicU32,
}

impl Counted {
    /// Returns the counts of no packet.
    fn none() -> Counted {
        Counted {
            packets: AtomicU32::new(0),
            by_a: AtomicU32::new(0),
            by_b: AtomicU32::new(0),
            by_neither: AtomicU32::new(0),
        }
    }

    /// Returns how many packets came by A, by B and by neither.
    fn counts(&self) -> (u32, u32, u32) {
        (
            self.by_a.load(Ordering::SeqCst),
            self.by_b.load(Ordering::SeqCst),
            self.by_neither.load(Ordering::SeqCst),
        )
    }
}

impl Loss for Counted {
    fn drops(&self, line: Line, first: u32) -> bool {
        let drops = Lossy.drops(line, first);
        if line == Line::A {
            self.by_a.fetch_add(u32::from(!drops), Ordering::SeqCst);
            return drops;
        }
        let is_lost = drops && Lossy.drops(Line::A, first);
        self.by_b.fetch_add(u32::from(!drops), Ordering::SeqCst);
        self.by_neither
            .fetch_add(u32::from(is_lost), Ordering::SeqCst);
        self.packets.fetch_add(1, Ordering::SeqCst);
        drops
    }
}

/// The row of all reports ends with this volume and these trades.
const ALL: &[u8] = b",4000,40\n";

/// Asserts that all was sent, and that the day and its follower wrote the whole report, the same, in the listing's order.
fn assert_whole<R: Abort>(rt: &R, played: &Played) {
    assert!(rt; played.is_sent);
    assert_eq!(rt; played.statuses, (0, 0));
    assert!(rt; rows_of(rt, &played.written).starts_with(FIRST_ROWS));
    assert!(rt; played.written.windows(ALL.len()).any(|text| text == ALL));
    assert_eq!(rt; played.written.as_slice(), played.followed.as_slice());
}

/// Each report waits for the one before, and has a packet of its own: of the 40, 20 come by line A, 10 of these by B too, and
/// 20 by the retransmission alone.
#[test]
fn lossy_day(rt: HostRuntime) {
    for (matrix, code) in [(Matrix::One, b' '), (Matrix::Two, b'2')] {
        let counted = Counted::none();
        let plan = Plan {
            matrix,
            code,
            reports: 20,
            packets: &counted.packets,
            restart_after: 5,
        };
        let played = play(&rt, rt.alloc(), &plan, &counted);
        assert_whole(&rt, &played);
        assert!(rt; counted.counts() == (20, 10, 20));
        assert!(rt; played.heard == [Some(20), Some(10)]);
    }
}

/// The day waits for the connection of the new start.
#[test]
fn a_follower_of_an_empty_day_starts_again_before_it_ends(rt: HostRuntime) {
    let plan = Plan {
        matrix: Matrix::One,
        code: b' ',
        reports: 0,
        packets: &AtomicU32::new(0),
        restart_after: 0,
    };
    let played = play(&rt, rt.alloc(), &plan, &NoLoss);
    assert_eq!(rt; played.statuses, (0, 0));
    assert_eq!(rt; rows_of(&rt, &played.written), EMPTY_ROWS);
    assert_eq!(rt; rows_of(&rt, &played.followed), EMPTY_ROWS);
}
