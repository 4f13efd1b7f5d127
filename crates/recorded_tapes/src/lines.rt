//! Splits a text after its last line feed.
ghost use Rattle.recorded_tapes.specs.Verdicts.{AreLines};

use crate::parts::{front, rest};

/// Returns the lines of a text, and what is after the last of them: a line that has no end, or nothing.
pub fn split_lines(text: &[u8]) -> (&[u8], &[u8])
    ensures { AreLines text.now result.0.now result.1.now }
{
    match text.iter().rposition(|byte| *byte == b'\n') {
        Some(place) => (front(text, place + 1), rest(text, place + 1)),
        None => (front(text, 0), text),
    }
}
