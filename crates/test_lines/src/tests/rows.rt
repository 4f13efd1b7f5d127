//! Tests the worked rows of a tape, each through a shared one.
ghost use Rattle.std.specs.Prelude.{◌≡◌};
ghost use Rattle.line_ledger.specs.Days.{terms_of};

use super::messages::Sent::{Cancel, CancelUnder, Correct, Reinstate, Report, ReportAs, ReportOf};
use super::messages::{AB, CD, EF, Sent, ended_len, message, prepared_of};
use Answer::{Number, Refused, Shown};
use Step::{Admit, Show};
use line_ledger::{DayName, LineRefusal, LineSeat, Prepared, Receipt, SharedTape, View, ViewFault};
use scratch_fold::{Mark, Summary};
use std::alloc::Global;
use std::marker::Brand;
use std::process::Abort;
use std::sync::Wait;
use tape_types::Symbol;

/// What a line does.
#[derive(Clone, Copy)]
enum Step {
    Admit(Sent),
    Show(&'static [u8; 8]),
}

/// A mark's price and place, 0 for none.
type Place = (u64, u32);

/// A summary in plain figures: open, high, low, last, volume and trades.
type Figures = (Place, Place, Place, Place, u64, u32);

/// The result of a line's step, a refusal by its number.
#[derive(Clone, Copy, PartialEq, Eq)]
enum Answer {
    /// The message has this tape number.
    Number(u32),
    Refused(u8),
    /// The tape has this many entries, this many of them the line's own, and the symbol has this summary.
    Shown(u32, u32, Figures),
}

/// How many steps have the right answer, and how many entries the day has.
type Played = Option<(usize, usize)>;

const NOTHING: Figures = ((0, 0), (0, 0), (0, 0), (0, 0), 0, 0);

/// The lines of N, P and Q are 0, 1 and 2.
const A_CANCEL_GIVES_THE_LAST_BACK: [(usize, Step, Answer); 6] = [
    (2, Admit(Report(b'Q', 1, 100_000)), Number(1)),
    (0, Admit(Report(b'N', 1, 101_000)), Number(2)),
    (
        2,
        Admit(ReportAs(b"@ L ", b'Q', 2, 100_500, 100)),
        Number(3),
    ),
    (
        1,
        Show(AB),
        Shown(
            3,
            0,
            (
                (100_000, 1),
                (101_000, 2),
                (100_000, 1),
                (101_000, 2),
                300,
                3,
            ),
        ),
    ),
    (0, Admit(Cancel(b'N', 2, 1)), Number(4)),
    (
        2,
        Show(AB),
        Shown(
            4,
            2,
            (
                (100_000, 1),
                (100_500, 3),
                (100_000, 1),
                (100_500, 3),
                200,
                2,
            ),
        ),
    ),
];

const A_CORRECTION_KEEPS_ITS_PLACE: [(usize, Step, Answer); 6] = [
    (0, Admit(Report(b'N', 1, 100_000)), Number(1)),
    (0, Admit(Report(b'N', 2, 102_000)), Number(2)),
    (0, Admit(Report(b'N', 3, 102_000)), Number(3)),
    (
        0,
        Show(AB),
        Shown(
            3,
            3,
            (
                (100_000, 1),
                (102_000, 2),
                (100_000, 1),
                (102_000, 3),
                300,
                3,
            ),
        ),
    ),
    (0, Admit(Correct(b'N', 4, 2, 99_000)), Number(4)),
    (
        0,
        Show(AB),
        Shown(
            4,
            4,
            (
                (100_000, 1),
                (102_000, 3),
                (99_000, 2),
                (102_000, 3),
                300,
                3,
            ),
        ),
    ),
];

const TARGETS_OF_EVERY_KIND: [(usize, Step, Answer); 9] = [
    (0, Admit(Report(b'N', 1, 100_000)), Number(1)),
    (0, Admit(Correct(b'N', 2, 1, 100_500)), Number(2)),
    (0, Admit(Correct(b'N', 3, 2, 100_500)), Refused(37)),
    (0, Admit(CancelUnder(CD, b'N', 3, 1)), Refused(38)),
    (0, Admit(Cancel(b'N', 3, 1)), Number(3)),
    (0, Admit(Correct(b'N', 4, 1, 100_500)), Refused(39)),
    (0, Admit(Cancel(b'N', 4, 9)), Refused(37)),
    (0, Show(AB), Shown(3, 3, NOTHING)),
    (0, Show(CD), Shown(3, 3, NOTHING)),
];

/// The corrected report stands again in its first place.
const REINSTATED: Figures = (
    (102_000, 1),
    (102_000, 1),
    (101_000, 2),
    (101_000, 2),
    200,
    2,
);

const A_REINSTATEMENT_BRINGS_THE_LATEST_BACK: [(usize, Step, Answer); 12] = [
    (0, Admit(Report(b'N', 1, 100_000)), Number(1)),
    (0, Admit(Report(b'N', 2, 101_000)), Number(2)),
    (0, Admit(Correct(b'N', 3, 1, 102_000)), Number(3)),
    (0, Admit(Cancel(b'N', 4, 1)), Number(4)),
    (0, Admit(Reinstate(b'N', 5, 3)), Refused(37)),
    (0, Admit(Reinstate(b'N', 5, 2)), Refused(43)),
    (0, Admit(Reinstate(b'N', 5, 1)), Number(5)),
    (0, Show(AB), Shown(5, 5, REINSTATED)),
    (0, Admit(Reinstate(b'N', 6, 1)), Refused(43)),
    (0, Admit(Cancel(b'N', 6, 1)), Number(6)),
    (0, Admit(Reinstate(b'N', 7, 1)), Number(7)),
    (0, Show(AB), Shown(7, 7, REINSTATED)),
];

const A_REFUSED_NUMBER_IS_USED_AGAIN: [(usize, Step, Answer); 8] = [
    (0, Admit(Report(b'N', 1, 100_000)), Number(1)),
    (0, Admit(Report(b'N', 1, 100_000)), Refused(35)),
    (0, Admit(ReportOf(EF, b'N', 5)), Refused(36)),
    (0, Show(EF), Refused(36)),
    (0, Admit(Report(b'N', 5, 100_000)), Number(2)),
    (0, Admit(Report(b'Z', 1, 100_000)), Refused(33)),
    (0, Admit(Report(b'Q', 1, 100_000)), Refused(33)),
    (
        0,
        Show(AB),
        Shown(
            2,
            2,
            (
                (100_000, 1),
                (100_000, 1),
                (100_000, 1),
                (100_000, 2),
                200,
                2,
            ),
        ),
    ),
];

fn place(mark: Option<Mark>) -> Place {
    match mark {
        Some(mark) => (mark.price.value(), mark.place.value()),
        None => (0, 0),
    }
}

fn figures(summary: Summary) -> Figures {
    (
        place(summary.opening),
        place(summary.high),
        place(summary.low),
        place(summary.last),
        summary.volume,
        summary.trades,
    )
}

fn admission(answer: Result<Receipt, LineRefusal>) -> Answer {
    match answer {
        Ok(receipt) => Number(receipt.number().value()),
        Err(refusal) => Refused(refusal.code()),
    }
}

fn showing(answer: Result<View, ViewFault>) -> Answer {
    match answer {
        Ok(view) => Shown(view.count(), view.mine(), figures(view.summary())),
        Err(fault) => Refused(fault.code()),
    }
}

/// Returns the answer to the line's step, or `None` if the step is none.
fn step_answer<D: DayName, R: Wait>(
    rt: &R,
    shared: &SharedTape<D>,
    seat: &mut LineSeat<D>,
    step: Step,
) -> Option<Answer> {
    match step {
        Admit(sent) => Some(admission(shared.admit(rt, seat, message(sent)?))),
        Show(name) => Some(showing(shared.view(rt, seat, Symbol::try_new(*name)?))),
    }
}

/// How many steps have the right answer, up to the first that has not.
fn answered<D: DayName, R: Wait>(
    rt: &R,
    shared: &SharedTape<D>,
    seats: &mut Vec<LineSeat<D>>,
    steps: &[(usize, Step, Answer)],
) -> usize {
    for at in 0..steps.len() {
        let (line, step, wanted) = steps[at];
        if line >= seats.len() || step_answer(rt, shared, &mut seats[line], step) != Some(wanted) {
            return at;
        }
    }
    steps.len()
}

/// Plays the steps in this day.
fn played<D: DayName, R: Wait + Abort>(
    rt: &R,
    prepared: Prepared,
    steps: &[(usize, Step, Answer)],
) -> Played
    requires name { prepared.blank.name ≡ D.name }
    requires parts { prepared.blank.parts ≡ D.parts }
    requires terms { terms_of prepared.tape ≡ D.terms }
{
    let Ok((shared, mut seats)) = SharedTape::<D>::open(prepared) else {
        return None;
    };
    let many = answered(rt, &shared, &mut seats, steps);
    Some((many, ended_len(rt, shared, seats)?))
}

/// Plays the steps in a new day.
fn row<R: Wait + Abort>(rt: &R, alloc: Global, steps: &[(usize, Step, Answer)]) -> Played {
    let prepared = prepared_of(alloc, 10)?;
    played::<Brand, _>(rt, prepared, steps)
}

/// The rows, each with its name, its steps, and how many entries the day has.
const ROWS: [(&str, &[(usize, Step, Answer)], usize); 5] = [
    (
        "a cancel gives the last back",
        &A_CANCEL_GIVES_THE_LAST_BACK,
        4,
    ),
    (
        "a correction keeps its place",
        &A_CORRECTION_KEEPS_ITS_PLACE,
        4,
    ),
    ("targets of every kind", &TARGETS_OF_EVERY_KIND, 3),
    (
        "a reinstatement brings the latest back",
        &A_REINSTATEMENT_BRINGS_THE_LATEST_BACK,
        7,
    ),
    (
        "a refused number is used again",
        &A_REFUSED_NUMBER_IS_USED_AGAIN,
        2,
    ),
];

#[test]
fn shared_rows(rt: HostRuntime) {
    for (name, steps, entries) in ROWS {
        let played = row(&rt, rt.alloc(), steps);
        assert_eq!(rt; played, Some((steps.len(), entries)), "{name}");
    }
}
