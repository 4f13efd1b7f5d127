//! Runs one line to its end: reads its frames, admits their messages, and counts the refused ones.
ghost use Rattle.std.specs.Prelude.{◌≡◌, ◌≢◌, [], IfErr, IfOk};
ghost use Rattle.std.specs.List.{cons_option};
ghost use Rattle.reports.specs.Messages.{header_of};
ghost use Rattle.participant_lines.specs.Runs.{Does, EndsAfter, Runs, RunsTallied, StopsAt, TakesMessage, effect_of};
ghost use Rattle.participant_lines.specs.declared.line_end.LineOutcome.TheVariants.{TooMany};

use crate::frame::read_spelled;
use crate::watch::ByGate;
use crate::{LineEnd, LineOutcome, LineWatch, Reason, RefusedFrame, Tally};
use line_ledger::{DayName, LineRefusal, LineSeat, Receipt, SharedTape};
use reports::{LONGEST_FRAME, Message};
use std::io::BufRead;
use std::sync::Wait;
use tape_types::Gate;

/// How many frames a line does at most.
pub const FRAMES_MOST: u32 = 33_554_432;

/// The outcome of a run, besides its seat.
#[derive(Clone, Copy, Debug, PartialEq, Eq)]
pub(crate) struct Outcome {
    /// The frames that were refused.
    pub tally: Tally,
    /// Why no more were done.
    pub ended: LineOutcome,
}

/// Returns what an answer to the message of this number does to its line: the refusal to count, `None` on an admission, or the
/// end of the line. Nothing else decides which refusals end a line.
#[inline(always)]
fn effect_of(
    answer: Result<Receipt, LineRefusal>,
    number: u32,
) -> Result<Option<RefusedFrame>, LineOutcome>
    ensures { result ≡ effect_of number answer }
{
    match answer {
        Ok(_) => Ok(None),
        Err(LineRefusal::Behind) => Err(LineOutcome::Behind),
        Err(LineRefusal::Refused(refusal)) => {
            if refusal.is_out_of_memory() {
                Err(LineOutcome::OutOfMemory)
            } else {
                Ok(Some(RefusedFrame {
                    reason: Reason::Refused(refusal),
                    number,
                }))
            }
        }
    }
}

/// Admits a message, and returns its refusal, if it is refused and the line goes on, or why the line ends at it.
#[inline(always)]
fn take_message<D: DayName, W: Wait>(
    rt: &W,
    shared: &SharedTape<D>,
    seat: &mut LineSeat<D>,
    message: Message,
) -> Result<Option<RefusedFrame>, LineOutcome>
    ensures ok { IfOk result (λ mark. TakesMessage D.terms seat.old message mark seat.new) }
    ensures err { IfErr result (λ ended. (seat.new ≡ seat.old) × StopsAt ended D.terms seat.old message) }
{
    let number = message.header().number.value();
    effect_of(shared.admit(rt, seat, message), number)
}

/// Reads the next frame and does it, and returns the refusal to count, if it is refused, or why the line ends before or at it.
/// The row is only room.
#[inline(always)]
fn do_frame<D: DayName, R: BufRead, W: Wait>(
    rt: &W,
    shared: &SharedTape<D>,
    seat: &mut LineSeat<D>,
    reader: &mut R,
    row: &mut [u8; LONGEST_FRAME],
) -> Result<Option<RefusedFrame>, LineOutcome>
    ensures ok { IfOk result (λ mark. Does D.terms seat.old (R.remaining reader.old) (R.remaining reader.new) 1 (cons_option mark []) seat.new) }
    ensures same { IfErr result (λ _. seat.new ≡ seat.old) }
    ensures err { IfErr result (λ ended. EndsAfter ended D.terms seat.old (R.remaining reader.old) (R.remaining reader.new)) }
    ensures goes_on { IfErr result (λ ended. ended ≢ TooMany) }
{
    match read_spelled(reader, row)? {
        Ok(message) => take_message(rt, shared, seat, message),
        Err(fault) => Ok(Some(RefusedFrame {
            reason: Reason::Unspelled(fault),
            number: 0,
        })),
    }
}

/// Does a line's frames until it ends, and calls the watch after each.
pub(crate) fn run_frames<D: DayName, R: BufRead, G: LineWatch, W: Wait>(
    rt: &W,
    shared: &SharedTape<D>,
    line: usize,
    seat: &mut LineSeat<D>,
    reader: &mut R,
    watch: &G,
) -> Outcome
    ensures { RunsTallied D.terms seat.old (R.remaining reader.old) (R.remaining reader.new) result.tally result.ended seat.new }
{
    let mut row = [0; LONGEST_FRAME];
    let mut tally = Tally::none();
    for done in 0..FRAMES_MOST {
        match do_frame(rt, shared, seat, reader, &mut row) {
            Ok(mark) => tally.count(mark),
            Err(ended) => return Outcome { tally, ended },
        }
        watch.after_frame(line, done + 1, seat.last(), &tally);
    }
    Outcome {
        tally,
        ended: LineOutcome::TooMany,
    }
}

/// Runs a line: reads frames, one after the other, and admits their messages by the line's seat. A frame is a length of 1
/// to `LONGEST_BODY` in two bytes, big-endian, and as many bytes. One that spells no message is refused, and so is one whose
/// message the tape does not take, out of memory aside: that is counted, and the line goes on.
///
/// It ends as `LineOutcome` says, and returns the seat in each case. It reads no byte after those that decide the end, allocates only
/// what an admission does, and may wait for the lock. After each frame that is done it calls the gate with the number of the
/// line, `line`, and how many of its frames are done, from 1.
pub fn run_line<D: DayName, R: BufRead, G: Gate, W: Wait>(
    rt: &W,
    shared: &SharedTape<D>,
    line: usize,
    seat: LineSeat<D>,
    reader: &mut R,
    gate: &G,
) -> LineEnd<D>
    ensures runs { Runs D.terms seat (R.remaining reader.old) (R.remaining reader.new) result.refused result.ended result.seat }
{
    let mut seat = seat;
    let watch = ByGate { gate };
    let Outcome { tally, ended } = run_frames(rt, shared, line, &mut seat, reader, &watch);
    LineEnd {
        seat,
        refused: tally.refused(),
        ended,
    }
}
