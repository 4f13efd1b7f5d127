//! Decides which data packets are lost before they are sent.
ghost use Rattle.std.specs.Prelude.{◌≡◌, false};

use arbitration::Line;

/// Which data packets a line loses before they are sent. An end packet is never lost this way.
pub trait Loss {
    /// Whether the line loses the data packet whose first entry has this tape number, from 1. It is asked for lines A and B.
    fn drops(&self, line: Line, first: u32) -> bool;
}

/// Loses nothing.
#[derive(Clone, Copy, Debug, PartialEq, Eq)]
pub struct NoLoss;

impl Loss for NoLoss {
    fn drops(&self, _line: Line, _first: u32) -> bool
        ensures { result ≡ false }
    {
        false
    }
}
