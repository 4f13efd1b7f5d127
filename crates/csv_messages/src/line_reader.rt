//! Gives a reader of records a line at a time, and keeps the line of the file in which a record begins.
ghost use Rattle.std.specs.Prelude.{◌≡◌, ◌≤◌, IfOk};
ghost use Rattle.csv_messages.specs.TableReading.{lines_remaining};

use crate::fault_text::is_line_end;
use std::alloc::{AllocError, Global};
use std::cell::Cell;
use std::io;
use std::io::{BufReader, Read};

/// A reader that gives a line at a time, so that a reader of records takes nothing beyond the line in which a record ends.
/// A line ends with a line feed, a carriage return or both.
#[derive(Drop)]
pub struct LineReader<R> {
    inner: BufReader<R>,
    line: u64,
    last: u8,
    began: Cell<u64>,
}

/// Returns the length of the first line, including the byte that ends it. It is 1 for no bytes, so that a read asks for some.
fn line_len(bytes: &[u8]) -> usize
    ensures { 1 ≤ result }
{
    match bytes.iter().position(|byte| is_line_end(*byte)) {
        Some(place) => place.saturating_add(1),
        None => bytes.len().max(1),
    }
}

impl<R: Read> LineReader<R> {
    /// Reads the lines of a reader. `AllocError` if there is no memory for its buffer.
    pub fn new(alloc: Global, reader: R) -> Result<LineReader<R>, AllocError>
    where
        R: Drop,
        ensures rest { IfOk result (λ lines. lines_remaining R.remaining lines ≡ R.remaining reader) }
    {
        match BufReader::new(alloc, reader) {
            Ok(inner) => Ok(LineReader {
                inner,
                line: 0,
                last: b'\n',
                began: Cell::new(0),
            }),
            Err(_) => Err(AllocError),
        }
    }

    /// Expects the next record, which begins at the next byte that does not end a line.
    pub fn await_record(&self) {
        self.began.set(0);
    }

    /// Returns the line of the file, from 1, in which the expected record began.
    pub fn line(&self) -> u64 {
        self.began.get()
    }

    /// Counts the bytes of a line or of a part of one.
    fn note(&mut self, bytes: &[u8])
        ensures { self.new.inner ≡ self.old.inner }
    {
        let [first, ..] = bytes else {
            return;
        };
        if is_line_end(self.last) && !(self.last == b'\r' && *first == b'\n') {
            self.line = self.line.saturating_add(1);
        }
        if !is_line_end(*first) && self.began.get() == 0 {
            self.began.set(self.line);
        }
        self.last = bytes[bytes.len() - 1];
    }
}

impl<R: Read> Read for LineReader<R> {
    ghost remaining = { lines_remaining R.remaining };

    fn read(&mut self, buf: &mut [u8]) -> io::Result<usize> {
        let room = line_len(self.inner.buffer()).min(buf.len());
        let len = self.inner.read(&mut buf[..room])?;
        self.note(&buf[..len]);
        Ok(len)
    }
}
