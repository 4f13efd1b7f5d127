//! Tests each store by a worked row, whose summaries were found by hand. The rows of a tape run over both stores too.

use super::super::steps::{Figures, Point, figures_of};
use super::super::stores::Kind::{self, Abort, Commit, Put, Swap, Take};
use super::super::stores::{Settled, effect};
use sale_matrix::LastRule;
use sale_matrix::LastRule::{Always, FirstOnly, SameMarket};
use std::alloc::Global;
use summaries::{IndexStore, ScratchStore, Store};
use tape_types::TapeNumber;

/// A report of a day: its place, its participant's letter, its rule for the last and its price.
#[derive(Clone, Copy)]
struct Report(u32, u8, LastRule, u64);

/// The next change, or the summary that is expected.
#[derive(Clone, Copy)]
enum Step {
    /// A change at the report's place.
    Does(Kind, Report),
    /// The open, the high, the low and the last are these reports, and there are so many trades.
    Shows([Report; 4], u32),
}

use Step::{Does, Shows};

const N_AT_NINE: Report = Report(9, b'N', Always, 100_000);

const Q_AT_TWO: Report = Report(2, b'Q', SameMarket, 101_000);

const N_AT_FIVE: Report = Report(5, b'N', SameMarket, 100_500);

/// The report at place 2 with another rule.
const SWAPPED: Report = Report(2, b'Q', FirstOnly, 101_000);

/// The report at place 5 with another rule.
const GIVEN_UP: Report = Report(5, b'N', Always, 100_500);

/// The report at place 5 with another price.
const COMMITTED: Report = Report(5, b'N', SameMarket, 99_000);

const EVERY_CALL: [Step; 14] = [
    Does(Put, N_AT_NINE),
    Does(Put, Q_AT_TWO),
    Does(Put, N_AT_FIVE),
    Shows([Q_AT_TWO, Q_AT_TWO, N_AT_NINE, N_AT_NINE], 3),
    Does(Take, N_AT_NINE),
    Shows([Q_AT_TWO, Q_AT_TWO, N_AT_FIVE, Q_AT_TWO], 2),
    Does(Swap, SWAPPED),
    Shows([Q_AT_TWO, Q_AT_TWO, N_AT_FIVE, Q_AT_TWO], 2),
    Does(Abort, GIVEN_UP),
    Shows([Q_AT_TWO, Q_AT_TWO, N_AT_FIVE, Q_AT_TWO], 2),
    Does(Take, Q_AT_TWO),
    Shows([N_AT_FIVE, N_AT_FIVE, N_AT_FIVE, N_AT_FIVE], 1),
    Does(Commit, COMMITTED),
    Shows([COMMITTED, COMMITTED, COMMITTED, COMMITTED], 1),
];

fn point_of(report: Report) -> Point {
    let Report(place, who, _, price) = report;
    Point(price, place, who)
}

fn figures(marks: [Report; 4], trades: u32) -> Figures {
    let [opening, high, low, last] = marks;
    Figures {
        opening: Some(point_of(opening)),
        high: Some(point_of(high)),
        low: Some(point_of(low)),
        last: Some(point_of(last)),
        volume: 100 * u64::from(trades),
        trades,
    }
}

fn does<S: Store>(store: &mut Settled<S>, kind: Kind, report: Report) -> Option<bool> {
    let Report(place, who, last, price) = report;
    let place = TapeNumber::try_new(place)?;
    Some(store.change(kind, place, &effect(who, last, price)?))
}

fn shows<S: Store>(store: &Settled<S>, wanted: Figures) -> bool {
    store.is_summed_soon() && figures_of(store.summary()) == wanted
}

fn is_so<S: Store>(store: &mut Settled<S>, step: Step) -> bool {
    match step {
        Does(kind, report) => does(store, kind, report) == Some(true),
        Shows(marks, trades) => shows(store, figures(marks, trades)),
    }
}

/// Takes the steps until one is not as expected, and returns how many were.
fn played<S: Store>(store: &mut Settled<S>, steps: &[Step]) -> usize {
    for at in 0..steps.len() {
        if !is_so(store, steps[at]) {
            return at;
        }
    }
    steps.len()
}

/// Returns how many steps are as expected on the plain store and on the one over indexes.
fn played_on_both(alloc: Global, steps: &[Step]) -> (usize, usize) {
    let plain = played(&mut Settled::<ScratchStore>::empty(alloc), steps);
    let indexed = played(&mut Settled::<IndexStore>::empty(alloc), steps);
    (plain, indexed)
}

#[test]
fn each_call_shows_in_the_summary_and_an_aborted_one_does_not(rt: HostRuntime) {
    assert_eq!(rt; played_on_both(rt.alloc(), &EVERY_CALL), (14, 14));
}
