//! Holds what a recorded tape is found to be: as recorded, cut off, or different.

use crate::Difference;
use csv_days::Refusals;

/// The rows of a recorded tape.
#[derive(Clone, Copy, Debug, PartialEq, Eq)]
pub struct Rows {
    /// How many they are.
    pub count: u64,
    /// Which of them the tape refused.
    pub refusals: Refusals,
}

/// What a recorded tape is found to be.
#[derive(Clone, Copy, Debug, PartialEq, Eq)]
pub enum Verdict {
    /// It is the text that `tape` writes of its messages.
    Recorded(Rows),
    /// Its lines are, but for the last one, which has no end. This is the number of that line, from 1.
    CutOff(Rows, u64),
    /// Its lines differ from that text, and this is the first place.
    Differs(Difference),
}
