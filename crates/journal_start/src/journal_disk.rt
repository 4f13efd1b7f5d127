//! The storage of a journal when a day starts.
ghost use Rattle.std.specs.Prelude.{◌≡◌, IfOk, IfSome, OnOk, option_map, take};
ghost use Rattle.std.specs.Io.KnownBytes.{Keeps};

use std::alloc::Global;
use std::io;
use std::io::Write;

/// The storage of a journal when a day starts, for example a file. What is written is appended.
pub trait JournalDisk: Write {
    /// Returns all bytes, from the front, and changes nothing.
    fn read_whole(&mut self, alloc: Global) -> io::Result<Vec<u8>>
        ensures same { Keeps (Self.contents self.old) (Self.contents self.new) }
        ensures bytes { IfOk result (λ bytes. IfSome (Self.contents self.old) (λ held. bytes.items ≡ held)) };

    /// Cuts the journal after `len` bytes. If that fails, nothing is said of its bytes.
    fn cut(&mut self, len: usize) -> io::Result<()>
        ensures { OnOk result (Keeps (option_map (take len) (Self.contents self.old)) (Self.contents self.new)) };

    /// Keeps all that was written or cut so far, and that the journal exists, if the day wants that.
    fn settle(&mut self) -> io::Result<()>
        ensures { Keeps (Self.contents self.old) (Self.contents self.new) };
}
