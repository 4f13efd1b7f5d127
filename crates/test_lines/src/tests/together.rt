//! Tests two lines at once, and what they publish; all participants' lines at once, and the turns that their gate gets.
ghost use Rattle.std.specs.Prelude.{◌≡◌};
ghost use Rattle.line_ledger.specs.Cells.{FirstTokens};
ghost use Rattle.line_ledger.specs.Days.{terms_of};

use super::days::{
    Confirmed, TURNS, confirmed_at_end, day_of_all, day_of_two, joined, report, without_price,
};
use super::lines::{LineFigures, day_of_lines, run_inputs, seats_taken_back};
use line_ledger::{
    Day, DayName, EndFault, LineSeat, Prepared, PublishFault, Published, SharedTape, Sighting,
    Unended,
};
use participant_lines::LineOutcome;
use std::alloc::Global;
use std::marker::Brand;
use std::process::Abort;
use std::sync::Wait;
use std::sync::atomic::{AtomicU32, Ordering};
use std::thread;
use std::thread::Threads;
use tape_frames::Source;
use tape_types::{Gate, Symbol};

/// Holds each of this many lines after its first message until all have done theirs, and counts the turns that it gets for each
/// of the first three lines.
#[derive(Drop)]
pub(super) struct Meeting {
    lines: u32,
    done: AtomicU32,
    met: AtomicU32,
    turns: [AtomicU32; 3],
}

impl Meeting {
    /// A meeting of this many lines, none of which has come.
    pub(super) fn of(lines: u32) -> Meeting {
        Meeting {
            lines,
            done: AtomicU32::new(0),
            met: AtomicU32::new(0),
            turns: [AtomicU32::new(0), AtomicU32::new(0), AtomicU32::new(0)],
        }
    }

    /// Counts a turn of a line, which must be the next one. After another turn, no turn is the next one.
    fn note(&self, line: usize, turn: u32) {
        let Some(turns) = self.turns.get(line) else {
            return;
        };
        let next = turns.load(Ordering::SeqCst).saturating_add(1);
        let count = if turn == next { turn } else { u32::MAX };
        turns.store(count, Ordering::SeqCst);
    }

    /// Holds a line whose first message is done until all lines have done theirs. One that waits in vain lets the others go.
    fn meet(&self) {
        self.done.fetch_add(1, Ordering::SeqCst);
        for _ in 0..TURNS {
            if self.done.load(Ordering::SeqCst) >= self.lines {
                self.met.fetch_add(1, Ordering::SeqCst);
                return;
            }
            thread::yield_now();
        }
        self.done.fetch_add(self.lines, Ordering::SeqCst);
    }

    /// How many lines found that all had come, and how many turns each of the first three lines had, one by one from 1.
    pub(super) fn noted(&self) -> (u32, [u32; 3]) {
        let turns = [
            self.turns[0].load(Ordering::SeqCst),
            self.turns[1].load(Ordering::SeqCst),
            self.turns[2].load(Ordering::SeqCst),
        ];
        (self.met.load(Ordering::SeqCst), turns)
    }
}

impl Gate for Meeting {
    fn between(&self, line: usize, turn: u32) {
        self.note(line, turn);
        if turn == 1 {
            self.meet();
        }
    }
}

/// The bytes of N's and of Q's line: three reports and two.
fn inputs(alloc: Global) -> Option<Vec<Vec<u8>>> {
    let mut inputs = Vec::new(alloc);
    let first = joined(alloc, &[report(b'N', 1), report(b'N', 2), report(b'N', 3)])?;
    inputs.push(first).ok()?;
    let second = joined(alloc, &[report(b'Q', 1), report(b'Q', 2)])?;
    inputs.push(second).ok()?;
    Some(inputs)
}

/// How many messages each of two lines was told of, if both ended with their input and nothing was refused.
fn counts(figures: &[LineFigures]) -> Option<(u32, u32)> {
    let [first, second] = figures else {
        return None;
    };
    let is_clean = |line: &LineFigures| line.refused == 0 && line.ended == LineOutcome::Clean;
    (is_clean(first) && is_clean(second)).then_some((first.count, second.count))
}

/// What two publications set, how many entries a source then finds, and whether the sixth cell shows one.
type Publications = ([Result<u32, PublishFault>; 2], u32, bool);

/// What is seen of a day of two lines: how many messages each was told of, how many its view shows, what is published, the
/// number of the fault of an end without Q's seat, and what the day confirms.
type Whole = (
    Option<(u32, u32)>,
    Option<(u32, u32)>,
    Publications,
    u8,
    Option<Confirmed>,
);

/// How many entries a line's view shows of it, if it was told of as many.
fn shown<D: DayName, W: Wait>(rt: &W, shared: &SharedTape<D>, seat: &LineSeat<D>) -> Option<u32> {
    let symbol = Symbol::try_new(*b"AB      ")?;
    let view = shared.view(rt, seat, symbol).ok()?;
    (view.mine() == seat.count()).then_some(view.mine())
}

/// The same of two lines.
fn views<D: DayName, W: Wait>(
    rt: &W,
    shared: &SharedTape<D>,
    seats: &[LineSeat<D>],
) -> Option<(u32, u32)> {
    let [first, second] = seats else {
        return None;
    };
    Some((shown(rt, shared, first)?, shown(rt, shared, second)?))
}

/// Returns what is published, and a token for each entry that was found.
fn publications<D: DayName, W: Wait>(
    rt: &W,
    shared: &SharedTape<D>,
) -> (Publications, Vec<Sighting>)
    ensures { FirstTokens shared.now result.1.items }
{
    let set = [shared.publish(rt, 64), shared.publish(rt, 64)];
    let mut published = Published::new(shared);
    let _ = published.refresh();
    let found = published.published();
    let is_beyond = shared.look(6).is_some();
    ((set, found, is_beyond), published.into_sightings())
}

/// The number of an end's fault, 0 for none.
fn code_of<D: DayName>(ended: &Result<Day, EndFault<D>>) -> u8 {
    match ended {
        Ok(_) => 0,
        Err(fault) => fault.code(),
    }
}

/// The number of the fault of an end that lacks a seat, and what it hands back. Another end stops the test.
fn refused_end<D: DayName, A: Abort>(
    rt: &A,
    shared: SharedTape<D>,
    seats: Vec<LineSeat<D>>,
) -> (u8, SharedTape<D>, Vec<LineSeat<D>>)
    ensures { result.1 ≡ shared }
{
    let ended = shared.end(seats);
    let code = code_of(&ended);
    let unended = match ended {
        Ok(_day) => panic!(rt; "a day without a seat ended"),
        Err(EndFault::Disagrees(_disagreement)) => panic!(rt; "a missing seat is another fault"),
        Err(EndFault::MissingSeat(unended)) => unended,
    };
    let Unended { shared, seats } = unended;
    (code, shared, seats)
}

/// The number of the fault of an end without the last seat, and what the day confirms that then ends with all seats.
fn late_end<D: DayName, A: Abort>(
    rt: &A,
    shared: SharedTape<D>,
    seats: Vec<LineSeat<D>>,
    tokens: &Vec<Sighting>,
) -> (u8, Option<Confirmed>)
    requires { FirstTokens shared tokens.now.items }
{
    let mut seats = seats;
    let Some(last) = seats.pop() else {
        panic!(rt; "there is no seat")
    };
    let (code, shared, mut seats) = refused_end(rt, shared, seats);
    assert!(rt; seats.len() < seats.capacity());
    seats.push_reserved(last);
    (code, confirmed_at_end(rt, shared, seats, tokens))
}

/// Returns what is seen of the day of N's and Q's lines.
fn two_lines<D: DayName + Send + Sync, T: Threads + Wait + Abort + Sync>(
    rt: &T,
    alloc: Global,
    prepared: Prepared,
    inputs: &[Vec<u8>],
    meeting: &Meeting,
) -> Option<Whole>
    requires name { prepared.blank.name ≡ D.name }
    requires parts { prepared.blank.parts ≡ D.parts }
    requires terms { terms_of prepared.tape ≡ D.terms }
{
    let Ok((shared, seats)) = SharedTape::<D>::open(prepared) else {
        return None;
    };
    let (seats, ran) = run_inputs(rt, alloc, &shared, seats, inputs, meeting);
    let counts = ran.ok().and_then(|figures| counts(&figures));
    let seats = seats_taken_back(rt, alloc, seats);
    let shown = views(rt, &shared, seats.as_slice());
    let (published, tokens) = publications(rt, &shared);
    let (code, confirmed) = late_end(rt, shared, seats, &tokens);
    Some((counts, shown, published, code, confirmed))
}

fn two_lines_of<T: Threads + Wait + Abort + Sync>(
    rt: &T,
    alloc: Global,
    prepared: Prepared,
    inputs: &[Vec<u8>],
    meeting: &Meeting,
) -> Option<Whole> {
    two_lines::<Brand, T>(rt, alloc, prepared, inputs, meeting)
}

fn two_lines_of_a_day<T: Threads + Wait + Abort + Sync>(
    rt: &T,
    alloc: Global,
    meeting: &Meeting,
) -> Option<Whole> {
    let inputs = inputs(alloc)?;
    two_lines_of(rt, alloc, day_of_two(alloc)?, &inputs, meeting)
}

#[test]
fn two_lines_run_at_once(rt: HostRuntime) {
    let meeting = Meeting::of(2);
    let counts = Some((3, 2));
    let published = ([Ok(5), Ok(0)], 5, false);
    assert_eq!(rt;
        two_lines_of_a_day(&rt, rt.alloc(), &meeting),
        Some((counts, counts, published, 91, Some((5, 5, 5))))
    );
    assert_eq!(rt; meeting.noted(), (2, [3, 2, 0]));
}

/// The bytes of all participants' lines: of A a report at no price between two reports, of B a report that comes again, and of
/// each other one report.
fn inputs_of_all(alloc: Global) -> Option<Vec<Vec<u8>>> {
    let mut inputs = Vec::new(alloc);
    let first = joined(
        alloc,
        &[report(b'A', 1), without_price(b'A', 2), report(b'A', 3)],
    )?;
    inputs.push(first).ok()?;
    let second = joined(alloc, &[report(b'B', 1), report(b'B', 1)])?;
    inputs.push(second).ok()?;
    for who in b'C'..=b'Z' {
        inputs.push(joined(alloc, &[report(who, 1)])?).ok()?;
    }
    Some(inputs)
}

/// Whether a line ended with its input, with this many frames refused and this many messages told.
fn is_end(line: &LineFigures, refused: u32, count: u32) -> bool {
    line.ended == LineOutcome::Clean && line.refused == refused && line.count == count
}

/// How many lines ended as they must.
fn many_ended(lines: &[LineFigures]) -> usize {
    let mut many: usize = 0;
    for at in 0..lines.len() {
        let (refused, count) = match at {
            0 => (1, 2),
            1 => (1, 1),
            _ => (0, 1),
        };
        if is_end(&lines[at], refused, count) {
            many = many.saturating_add(1);
        }
    }
    many
}

/// How many of all participants' lines at once ended as they must, and how many entries their day has.
fn all_lines<T: Threads + Wait + Abort + Sync>(
    rt: &T,
    alloc: Global,
    meeting: &Meeting,
) -> Option<(usize, usize)> {
    let inputs = inputs_of_all(alloc)?;
    let (lines, day) = day_of_lines(rt, alloc, day_of_all(alloc)?, &inputs, meeting)?;
    Some((many_ended(&lines), day.tape().entries().len()))
}

#[test]
fn all_26_lines_run_at_once_and_the_gate_is_given_each_turn(rt: HostRuntime) {
    let meeting = Meeting::of(26);
    assert_eq!(rt; all_lines(&rt, rt.alloc(), &meeting), Some((26, 27)));
    assert_eq!(rt; meeting.noted(), (26, [3, 2, 1]));
}
