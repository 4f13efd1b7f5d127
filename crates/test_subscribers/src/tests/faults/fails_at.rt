//! A reader or a writer whose call of one number fails.

use std::io;
use std::io::{ErrorKind, Read, Write};

/// A reader or a writer over another one, whose call of one number, counted from 1, fails, and no other. A call of an even number
/// times out, and one of an odd number has lost its peer. Before each call it is interrupted once, and it moves at most `piece`
/// bytes a call.
#[derive(Drop)]
pub(super) struct FailsAt<T: Drop> {
    pub(super) inner: T,
    piece: usize,
    calls: u32,
    at: u32,
    is_interrupted: bool,
}

impl<T: Drop> FailsAt<T> {
    pub(super) fn new(inner: T, piece: usize, at: u32) -> Self {
        FailsAt {
            inner,
            piece,
            calls: 0,
            at,
            is_interrupted: false,
        }
    }

    /// Whether the call that fails has come.
    pub(super) fn has_failed(&self) -> bool {
        self.calls >= self.at
    }

    fn call(&mut self) -> io::Result<()> {
        self.is_interrupted = !self.is_interrupted;
        if self.is_interrupted {
            return Err(io::Error::from(ErrorKind::Interrupted));
        }
        self.calls = self.calls.saturating_add(1);
        if self.calls != self.at {
            return Ok(());
        }
        Err(io::Error::from(match self.at % 2 {
            0 => ErrorKind::TimedOut,
            _ => ErrorKind::BrokenPipe,
        }))
    }
}

impl<R: Read + Drop> Read for FailsAt<R> {
    fn read(&mut self, buf: &mut [u8]) -> io::Result<usize> {
        self.call()?;
        let len = buf.len().min(self.piece);
        self.inner.read(&mut buf[..len])
    }
}

impl<W: Write + Drop> Write for FailsAt<W> {
    fn write(&mut self, buf: &[u8]) -> io::Result<usize> {
        self.call()?;
        let len = buf.len().min(self.piece);
        self.inner.write(&buf[..len])
    }

    /// Flushes, without an interruption.
    fn flush(&mut self) -> io::Result<()> {
        self.is_interrupted = true;
        self.call()?;
        self.inner.flush()
    }
}
