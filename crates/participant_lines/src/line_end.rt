//! Holds how a line ends: its seat, its refused frames, and why it does no more.

use crate::Tally;
use line_ledger::{DayName, LineSeat};

/// Why a line does no more frames.
#[derive(Clone, Copy, Debug, PartialEq, Eq)]
pub enum LineOutcome {
    /// The input ended, and the frames were all of it.
    Clean,
    /// The input ended within a frame: after one byte, or after a length of 1 to `LONGEST_BODY` and fewer bytes
    /// than it says.
    Truncated,
    /// A length of 0 or above `LONGEST_BODY` came next.
    Oversize,
    /// A read failed. What was read after the frames that were done is not a whole frame.
    ReadFault,
    /// `FRAMES_MOST` frames were done, which is the most. What follows them is left unread.
    TooMany,
    /// Memory ran out for the next frame's message. The frame was read, and nothing changed; it is not counted.
    OutOfMemory,
    /// The tape's count, sizes or last number of the participant is not what the seat was told. The next frame was read, and
    /// nothing changed; it is not counted.
    Behind,
}

/// A line that has ended. It must be spent, since it holds the line's seat.
pub struct LineEnd<D: DayName> {
    /// The line's seat, with what it was told.
    pub seat: LineSeat<D>,
    /// How many frames were refused, from 0 to `FRAMES_MOST`: those that spell no message, and those whose message the tape
    /// does not take, out of memory aside.
    pub refused: u32,
    /// Why no more were done.
    pub ended: LineOutcome,
}

/// A line that has ended, with what was refused of it. It must be spent, since it holds the line's seat.
pub struct TalliedEnd<D: DayName> {
    /// The line's seat, with what it was told.
    pub seat: LineSeat<D>,
    /// The frames that were refused: those that spell no message, and those whose message the tape does not take, out of memory
    /// aside.
    pub tally: Tally,
    /// Why no more were done.
    pub ended: LineOutcome,
}
