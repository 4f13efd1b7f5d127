//! The sink: what is given the entries of a tape that is followed, one by one.
ghost use Rattle.std.specs.Prelude.{◌≡◌, ℕ, List, Option, None, [], IsTrue, OnErr, OnOk};
ghost use Rattle.std.specs.Io.KnownBytes.{Appends, Keeps};
ghost use Rattle.whole_io.specs.Writing.{WritesPrefix};
ghost use Rattle.feed_follower.specs.Faults.{sink_fault};
ghost use Rattle.feed_follower.specs.Sinks.{EntryText};

use feed_ends::Fault;
use tape_core::{Entry, RowFigures};

/// Why a sink did not take what it was given.
#[derive(Clone, Copy, Debug, PartialEq, Eq)]
pub enum SinkFault {
    /// A write or a flush failed, or the tape begins anew and what was written can't be taken back.
    Write,
    /// Memory ran out.
    OutOfMemory,
}

impl SinkFault {
    /// Returns the fault of the run that it ends, of status 4 or 5.
    pub fn fault(self) -> Fault
        ensures { result ≡ sink_fault self }
    {
        match self {
            SinkFault::Write => Fault::Write,
            SinkFault::OutOfMemory => Fault::Memory,
        }
    }
}

impl From<SinkFault> for Fault {
    ghost from_gives = { λ fault run. run ≡ sink_fault fault };

    fn from(fault: SinkFault) -> Fault {
        fault.fault()
    }
}

/// What is given the entries of a tape that is followed, in the tape's order and each once, as soon as they are held. A
/// contract sees the bytes that it makes of them, as of a writer. A fault that a call returns ends the run, and nothing is
/// given after it.
pub trait EntrySink: Drop {
    // The bytes that it makes of an entry and the figures of its symbol right after it.
    ghost text: { EntryText };

    // The bytes that it has, if they are known.
    ghost contents: { Self → Option (List ℕ) } = { λ _. None };

    /// Whether it makes nothing of any entry. Then it is given none, and neither flushed nor told of a restart.
    fn takes_nothing(&self) -> bool
        ensures { IsTrue result → contents self.now ≡ None };

    /// Takes the next entry of the tape, with the figures of its symbol over the tape up to this entry.
    fn take(&mut self, entry: &Entry, after: &RowFigures) -> Result<(), SinkFault>
        ensures taken { OnOk result (Appends (contents self.old) (contents self.new) (text entry.now after.now)) }
        ensures part { OnErr result (WritesPrefix (text entry.now after.now) (contents self.old) (contents self.new)) };

    /// Flushes, since nothing more is ready for now: what it took should reach its reader.
    fn flush(&mut self) -> Result<(), SinkFault>
        ensures { Keeps (contents self.old) (contents self.new) };

    /// Notes that the tape begins anew after entries of it were given: they will come again, from the first one. Only a sink
    /// whose bytes are not known may return `Ok`. One that has written rows can't take them back, and refuses.
    fn restarted(&mut self) -> Result<(), SinkFault>
        ensures forgets { OnOk result (contents self.old ≡ None) }
        ensures kept { Keeps (contents self.old) (contents self.new) };
}

/// A sink that takes nothing.
#[derive(Clone, Copy, Debug, PartialEq, Eq)]
pub struct NoSink;

impl EntrySink for NoSink {
    ghost text = { λ entry after. [] };

    fn takes_nothing(&self) -> bool {
        true
    }

    fn take(&mut self, _entry: &Entry, _after: &RowFigures) -> Result<(), SinkFault> {
        Ok(())
    }

    fn flush(&mut self) -> Result<(), SinkFault> {
        Ok(())
    }

    fn restarted(&mut self) -> Result<(), SinkFault> {
        Ok(())
    }
}
