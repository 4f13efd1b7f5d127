//! What a day's journal is kept in: a trait, and a journal in memory.
ghost use Rattle.std.specs.Prelude.{◌≡◌, List, None, Option, OnOk, Some, length, take, ℕ};
ghost use Rattle.std.specs.Io.KnownBytes.{Keeps};

use std::io;
use std::io::Write;

/// What was written could not be kept. How much of it is kept is not known.
#[derive(Clone, Copy, Debug, PartialEq, Eq)]
pub struct KeepFault;

/// What a day's journal is kept in, such as a file whose bytes are on the disk once they are kept.
pub trait JournalFile: Write + Drop {
    // The bytes that are kept, if they are known.
    ghost kept: { Self → Option (List ℕ) } = { λ _. None };

    /// Keeps all that was written so far, and writes nothing. If it fails, nothing is said of what is kept.
    fn keep(&mut self) -> Result<(), KeepFault>
        ensures same { Keeps (Self.contents self.old) (Self.contents self.new) }
        ensures kept { OnOk result (kept self.new ≡ Self.contents self.new) };
}

/// A journal in memory, of which some bytes are kept.
#[derive(Drop)]
pub struct MemoryJournal {
    /// The bytes that were written.
    pub bytes: Vec<u8>,
    /// How many of them are kept.
    pub kept: usize,
}

impl Write for MemoryJournal {
    ghost contents = { λ m. Some m.bytes.items };

    /// Takes all bytes, or fails if memory runs out.
    fn write(&mut self, buf: &[u8]) -> io::Result<usize> {
        self.bytes.write(buf)
    }

    /// Changes nothing.
    fn flush(&mut self) -> io::Result<()> {
        Ok(())
    }
}

impl JournalFile for MemoryJournal {
    ghost kept = { λ m. Some (take m.kept m.bytes.items) };

    /// Never fails.
    fn keep(&mut self) -> Result<(), KeepFault> {
        self.kept = self.bytes.len();
        Ok(())
    }
}
