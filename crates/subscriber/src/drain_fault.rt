//! The reasons for which a drain stops early, each with its number and name.
ghost use Rattle.std.specs.Prelude.{◌≡◌, Some};
ghost use Rattle.subscriber.specs.Faults.{stop_code, stop_name};

use std::fmt;
use tape_core::Refusal;
use thiserror::Error;

/// Why a drain stops before nothing is ready.
#[derive(Clone, Copy, Debug, PartialEq, Eq, Error)]
pub enum Stop {
    /// The subscriber's own tape refuses the next entry's message for this reason: `Full` if the subscriber's limit is reached,
    /// `OutOfMemory`, and any other only if the feed is not a tape. The entry stays in the window, and the next drain tries it
    /// again.
    Refused(Refusal),
    /// The subscriber's own entry differs from the feed's. Its own is held and counted as drained, the feed's is taken out of
    /// the window, and from then on each delivery and drain returns `Failed`.
    OtherSummary,
    /// An earlier drain returned `OtherSummary`. Nothing is drained.
    Failed,
}

/// A drain that stopped: the entries that it counts are held, and the others stay in the window.
#[derive(Clone, Copy, Debug, PartialEq, Eq, Error)]
pub struct DrainFault {
    /// How many entries this drain put on the subscriber's own tape, 0 to `REACH`.
    pub drained: u32,
    /// Why it stopped.
    pub why: Stop,
}

impl Stop {
    /// The number of the stop: its own, or that of the tape's refusal.
    pub fn code(self) -> u8
        ensures number { result ≡ stop_code self }
    {
        match self {
            Stop::Refused(refusal) => refusal.code(),
            Stop::OtherSummary => 42,
            Stop::Failed => 64,
        }
    }

    /// The name of the stop, as printed.
    pub fn name(self) -> &'static str
        ensures text { result.now ≡ stop_name self }
    {
        match self {
            Stop::Refused(refusal) => refusal.name(),
            Stop::OtherSummary => "OtherSummary",
            Stop::Failed => "Failed",
        }
    }
}

impl fmt::Display for Stop {
    ghost output = { λ e. Some (stop_name e) };

    fn fmt<W: fmt::Write>(&self, f: &mut fmt::Formatter<W>) -> fmt::Result {
        f.write_str(self.name())
    }
}

impl fmt::Display for DrainFault {
    ghost output = { λ e. Some (stop_name e.why) };

    fn fmt<W: fmt::Write>(&self, f: &mut fmt::Formatter<W>) -> fmt::Result {
        f.write_str(self.why.name())
    }
}
