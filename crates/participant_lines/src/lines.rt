//! Runs all lines of a day at once, each in its own worker, and returns their ends in the order of the lines.
ghost use Rattle.std.specs.Prelude.{◌≡◌, ◌<◌, ◌≤◌, ℕ, IfErr, IfOk, None, Some, [], length, map, slice_index_or, vec_len};
ghost use Rattle.std.specs.Vec.{vec_capacity};
ghost use Rattle.participant_lines.specs.Lines.{HasRun, HasTallied, held};
ghost use Rattle.participant_lines.specs.declared.unstarted.Lack.TheVariants.{Worker};

use crate::running::{Outcome, run_frames};
use crate::watch::ByGate;
use crate::{Lack, LineEnd, LineOutcome, LineWatch, TalliedEnd, Tally, Unstarted};
use line_ledger::{DayName, LineSeat, SharedTape};
use std::alloc::Global;
use std::io::BufRead;
use std::sync::Wait;
use std::thread;
use std::thread::Threads;
use tape_types::{Gate, can_start};

/// A line while it runs. It has no reader once it has ended.
struct Running<D: DayName, R> {
    seat: LineSeat<D>,
    reader: Option<R>,
    outcome: Outcome,
}

/// Returns the lines as not started, with no ends, for this lack.
fn unstarted<D: DayName, R>(
    alloc: Global,
    lines: Vec<(LineSeat<D>, R)>,
    why: Lack,
) -> Unstarted<D, R>
    ensures { (result.ends.items ≡ []) × (result.lines.items ≡ lines.items) × (result.why ≡ why) }
{
    Unstarted {
        ends: Vec::new(alloc),
        lines,
        why,
    }
}

/// Returns the lines as they are before they run, or the lines again if memory runs out.
fn running_lines<D: DayName, R>(
    alloc: Global,
    lines: Vec<(LineSeat<D>, R)>,
) -> Result<Vec<Running<D, R>>, Vec<(LineSeat<D>, R)>>
    ensures ok { IfOk result (λ running. map (λ r. (r.seat, r.reader)) running.items ≡ map held lines.items) }
    ensures err { IfErr result (λ back. back.items ≡ lines.items) }
{
    let Ok(mut running) = Vec::with_capacity(alloc, lines.len()) else {
        return Err(lines);
    };
    let mut left = lines.into_iter();
    while let Some((seat, reader)) = left.next() {
        running.push_reserved(Running {
            seat,
            reader: Some(reader),
            outcome: Outcome {
                tally: Tally::none(),
                ended: LineOutcome::Clean,
            },
        });
    }
    left.destroy_empty();
    Ok(running)
}

/// Returns the ends of lines that have run, put into a vector with room for them.
fn tallied_ends<D: DayName, R: Drop>(
    running: Vec<Running<D, R>>,
    ends: Vec<TalliedEnd<D>>,
) -> Vec<TalliedEnd<D>>
    requires room { vec_len running ≤ vec_capacity ends }
    requires empty { ends.items ≡ [] }
    requires closed { (i : ℕ) (d : _) → i < length running.items → (slice_index_or running.items i d).reader ≡ None }
    ensures { result.items ≡ map (λ r. record { seat = r.seat; tally = r.outcome.tally; ended = r.outcome.ended }) running.items }
{
    let mut ends = ends;
    let mut left = running.into_iter();
    while let Some(line) = left.next() {
        let Running {
            seat,
            reader: _,
            outcome: Outcome { tally, ended },
        } = line;
        ends.push_reserved(TalliedEnd { seat, tally, ended });
    }
    left.destroy_empty();
    ends
}

/// Returns the same ends without their tallies, put into a vector with room for them.
fn line_ends<D: DayName>(tallied: Vec<TalliedEnd<D>>, ends: Vec<LineEnd<D>>) -> Vec<LineEnd<D>>
    requires room { vec_len tallied ≤ vec_capacity ends }
    requires empty { ends.items ≡ [] }
    ensures { result.items ≡ map (λ e. record { seat = e.seat; refused = e.tally.refused; ended = e.ended }) tallied.items }
{
    let mut ends = ends;
    let mut left = tallied.into_iter();
    while let Some(end) = left.next() {
        let TalliedEnd { seat, tally, ended } = end;
        ends.push_reserved(LineEnd {
            seat,
            refused: tally.refused(),
            ended,
        });
    }
    left.destroy_empty();
    ends
}

/// Runs each line in its own worker: the workers are started by halves, and all are joined.
fn run_each<
    D: DayName + Send + Sync,
    R: BufRead + Send + Drop,
    G: LineWatch + Sync,
    T: Threads + Wait + Sync,
>(rt: &T, shared: &SharedTape<D>, lines: &mut [Running<D, R>], watch: &G)
    ensures len { length lines.new ≡ length lines.old }
    ensures who { (i : ℕ) (d : _) → i < length lines.old → (slice_index_or lines.new i d).seat.who ≡ (slice_index_or lines.old i d).seat.who }
    ensures each { (i : ℕ) (d : _) → i < length lines.old → (r : _) → (slice_index_or lines.old i d).reader ≡ Some r
        → HasTallied D.terms (slice_index_or lines.old i d).seat (R.remaining r)
        (slice_index_or lines.new i d).outcome.tally (slice_index_or lines.new i d).outcome.ended (slice_index_or lines.new i d).seat }
    ensures closed { (i : ℕ) (d : _) → i < length lines.old → (slice_index_or lines.new i d).reader ≡ None }
{
    let workers = lines.len();
    if workers == 0 {
        return;
    }
    let work = |line: usize, running: &mut Running<D, R>|
        ensures who { running.exit.now.seat.who ≡ running.entry.now.seat.who }
        ensures ran { (r : _) → running.entry.now.reader ≡ Some r → HasTallied D.terms running.entry.now.seat (R.remaining r)
            running.exit.now.outcome.tally running.exit.now.outcome.ended running.exit.now.seat }
        ensures closed { running.exit.now.reader ≡ None }
    { run_one(rt, shared, line, running, watch) };
    thread::for_each_mut(rt, lines, workers, &work);
}

/// Runs one line, and drops its reader as soon as the line has ended, so that its peer does not wait for the other lines.
fn run_one<D: DayName, R: BufRead + Drop, G: LineWatch, W: Wait>(
    rt: &W,
    shared: &SharedTape<D>,
    line: usize,
    running: &mut Running<D, R>,
    watch: &G,
)
    ensures who { running.new.seat.who ≡ running.old.seat.who }
    ensures ran { (r : _) → running.old.reader ≡ Some r → HasTallied D.terms running.old.seat (R.remaining r)
        running.new.outcome.tally running.new.outcome.ended running.new.seat }
    ensures closed { running.new.reader ≡ None }
{
    let Running {
        seat,
        reader,
        outcome,
    } = running;
    if let Some(mut open) = reader.take() {
        *outcome = run_frames(rt, shared, line, seat, &mut open, watch);
    }
}

/// Runs all lines at once as `run_lines` does, calls the watch after each frame of each, and returns their tallies with their
/// ends. The errors are those of `run_lines`: nothing is started, and all lines are returned with their seats.
pub fn run_watched_lines<
    D: DayName + Send + Sync,
    R: BufRead + Send + Drop,
    G: LineWatch + Sync,
    T: Threads + Wait + Sync,
>(
    rt: &T,
    alloc: Global,
    shared: &SharedTape<D>,
    lines: Vec<(LineSeat<D>, R)>,
    watch: &G,
) -> Result<Vec<TalliedEnd<D>>, Unstarted<D, R>>
    ensures len { IfOk result (λ ends. length ends.items ≡ length lines.items) }
    // Each end is that of the line at its position.
    ensures each { IfOk result (λ ends. (i : ℕ) (l : _) (e : _) → i < length lines.items
        → HasTallied D.terms (slice_index_or lines.items i l).0 (R.remaining (slice_index_or lines.items i l).1)
        (slice_index_or ends.items i e).tally (slice_index_or ends.items i e).ended (slice_index_or ends.items i e).seat) }
    ensures same { IfOk result (λ ends. map (λ e. e.seat.who) ends.items ≡ map (λ l. l.0.who) lines.items) }
    ensures back { IfErr result (λ unstarted. (unstarted.ends.items ≡ []) × (unstarted.lines.items ≡ lines.items)) }
    ensures why { IfErr result (λ unstarted. unstarted.why ≡ Worker → 2 ≤ length lines.items) }
{
    let Ok(ends) = Vec::with_capacity(alloc, lines.len()) else {
        return Err(unstarted(alloc, lines, Lack::Memory));
    };
    if lines.len() > 1 && !can_start(rt) {
        ends.destroy_empty();
        return Err(unstarted(alloc, lines, Lack::Worker));
    }
    let mut running = match running_lines(alloc, lines) {
        Ok(running) => running,
        Err(lines) => {
            ends.destroy_empty();
            return Err(unstarted(alloc, lines, Lack::Memory));
        }
    };
    run_each(rt, shared, running.as_mut_slice(), watch);
    Ok(tallied_ends(running, ends))
}

/// Runs all lines at once, each in a worker as `run_line` runs it, with its position from 0 as its number, and waits for their
/// ends, which it returns in the order of the lines. The workers are started by halves. A line's reader is dropped when that
/// line has ended, while others may still run.
///
/// Nothing is started, and all lines are returned with their seats, if memory runs out (`Lack::Memory`) or, with two lines or
/// more, if no thread can be started (`Lack::Worker`). If a thread is refused later, its half of the lines is run by the thread
/// that asked for it.
pub fn run_lines<
    D: DayName + Send + Sync,
    R: BufRead + Send + Drop,
    G: Gate + Sync,
    T: Threads + Wait + Sync,
>(
    rt: &T,
    alloc: Global,
    shared: &SharedTape<D>,
    lines: Vec<(LineSeat<D>, R)>,
    gate: &G,
) -> Result<Vec<LineEnd<D>>, Unstarted<D, R>>
    ensures len { IfOk result (λ ends. length ends.items ≡ length lines.items) }
    // Each end is that of the line at its position.
    ensures each { IfOk result (λ ends. (i : ℕ) (l : _) (e : _) → i < length lines.items
        → HasRun D.terms (slice_index_or lines.items i l).0 (R.remaining (slice_index_or lines.items i l).1)
        (slice_index_or ends.items i e).refused (slice_index_or ends.items i e).ended (slice_index_or ends.items i e).seat) }
    ensures same { IfOk result (λ ends. map (λ e. e.seat.who) ends.items ≡ map (λ l. l.0.who) lines.items) }
    ensures back { IfErr result (λ unstarted. (unstarted.ends.items ≡ []) × (unstarted.lines.items ≡ lines.items)) }
    ensures why { IfErr result (λ unstarted. unstarted.why ≡ Worker → 2 ≤ length lines.items) }
{
    let Ok(ends) = Vec::with_capacity(alloc, lines.len()) else {
        return Err(unstarted(alloc, lines, Lack::Memory));
    };
    match run_watched_lines(rt, alloc, shared, lines, &ByGate { gate }) {
        Ok(tallied) => Ok(line_ends(tallied, ends)),
        Err(unstarted) => {
            ends.destroy_empty();
            Err(unstarted)
        }
    }
}
