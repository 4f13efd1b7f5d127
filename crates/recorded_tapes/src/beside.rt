//! Compares what is written with a recorded text, and keeps only how much of it is the same and what was written after that.
ghost use Rattle.std.specs.Prelude.{◌≤◌, ◌≡◌, ◌++◌, [], Some, drop, length, take};

use crate::parts::rest;
use std::alloc::Global;
use std::io;
use std::io::Write;

/// A text that is written, beside a recorded one: how much of the recorded one it begins with, and what was written after that.
/// So a text that is the recorded one allocates nothing.
#[derive(Drop)]
pub struct Beside<'t> {
    /// The recorded text.
    pub recorded: &'t [u8],
    /// How many bytes of it were written.
    pub same: usize,
    /// What was written after them, from the first piece on that differs from the recorded text.
    pub behind: Vec<u8>,
    ghost within: { same ≤ length recorded.now },
}

impl<'t> Beside<'t> {
    /// Returns a writer to which nothing is written yet.
    pub fn new(alloc: Global, recorded: &'t [u8]) -> Beside<'t>
        ensures recorded { result.recorded.now ≡ recorded.now }
        ensures none { take result.same result.recorded.now ++ result.behind.items ≡ [] }
    {
        Beside {
            recorded,
            same: 0,
            behind: Vec::new(alloc),
        }
    }

    /// The rest of the recorded text after what was written of it.
    pub fn left(&self) -> &[u8]
        ensures { result.now ≡ drop self.now.same self.now.recorded.now }
    {
        rest(self.recorded, self.same)
    }
}

impl Write for Beside<'_> {
    ghost contents = { λ beside. Some (take beside.same beside.recorded.now ++ beside.behind.items) };

    fn write(&mut self, buf: &[u8]) -> io::Result<usize> {
        if self.behind.as_slice().is_empty() && self.left().starts_with(buf) {
            self.same += buf.len();
        } else {
            self.behind.extend_from_slice(buf)?;
        }
        Ok(buf.len())
    }

    fn flush(&mut self) -> io::Result<()> {
        Ok(())
    }
}
