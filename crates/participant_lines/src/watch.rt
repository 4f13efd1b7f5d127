//! Defines who is called after each frame of a line while it runs.

use crate::Tally;
use tape_types::Gate;

/// Is called after each frame of a line. A watch changes no result: its caller promises the same whatever it does.
pub trait LineWatch {
    /// Called once after each frame of a line that is done: `line` is the line's number from 0, `done` how many of its frames
    /// are done, from 1, `last` its participant's number of the last message that was admitted, 0 if none was, and `tally` has
    /// the frames that were refused. It may wait, if its implementation may.
    fn after_frame(&self, line: usize, done: u32, last: u32, tally: &Tally);
}

/// A gate as a watch, which learns only how many frames are done.
#[derive(Drop)]
pub(crate) struct ByGate<'a, G> {
    pub(crate) gate: &'a G,
}

impl<G: Gate> LineWatch for ByGate<'_, G> {
    fn after_frame(&self, line: usize, done: u32, _last: u32, _tally: &Tally) {
        self.gate.between(line, done)
    }
}
