//! Writers that know whether whoever read what they write is gone: they remember whether the last error was that of a broken
//! pipe.
ghost use Rattle.std.specs.Prelude.{◌≡◌, ◌↔◌, Bool, IfErr, IsTrue, OnOk, false};
ghost use Rattle.std.specs.Io.{WritesAtMost};
ghost use Rattle.std.specs.Io.KnownBytes.{Keeps, WriteAppends};
ghost use Rattle.std.specs.IoError.{error_kind};

use std::io;
use std::io::{Error, ErrorKind, Write};

/// A writer that knows whether whoever read what it writes is gone.
pub trait Output: Write {
    // Whether its last error was that of a broken pipe.
    ghost reader_gone: { Self → Bool };

    /// Returns whether its last error was that of a broken pipe.
    fn reader_is_gone(&self) -> bool
        ensures { result ≡ reader_gone self.now };
}

/// Returns whether an error is that of a broken pipe.
fn is_broken_pipe(error: &Error) -> bool
    ensures { IsTrue result ↔ (error_kind error.now ≡ ErrorKind.BrokenPipe) }
{
    matches!(error.kind(), ErrorKind::BrokenPipe)
}

/// A writer that notes whether its last error was that of a broken pipe.
#[derive(Drop)]
pub struct PipeWriter<W> {
    inner: W,
    gone: bool,
}

impl<W> PipeWriter<W> {
    /// Wraps a writer that had no error so far.
    pub fn new(inner: W) -> PipeWriter<W>
        ensures inner { result.inner ≡ inner }
        ensures gone { result.gone ≡ false }
    {
        PipeWriter { inner, gone: false }
    }

    /// Returns the wrapped writer.
    pub fn into_inner(self) -> W
        ensures { result ≡ self.inner }
    {
        let PipeWriter { inner, gone: _ } = self;
        inner
    }
}

impl<W: Write> Write for PipeWriter<W> {
    ghost contents = { λ writer. W.contents writer.inner };

    fn write(&mut self, buf: &[u8]) -> io::Result<usize>
        ensures bound { WritesAtMost result buf.now }
        ensures bytes { WriteAppends (W.contents self.old.inner) (W.contents self.new.inner) result buf.now }
        ensures gone { IfErr result (λ error. IsTrue self.new.gone ↔ (error_kind error ≡ ErrorKind.BrokenPipe)) }
        ensures as_before { OnOk result (self.new.gone ≡ self.old.gone) }
    {
        let written = self.inner.write(buf);
        if let Err(error) = &written {
            self.gone = is_broken_pipe(error);
        }
        written
    }

    fn flush(&mut self) -> io::Result<()>
        ensures bytes { Keeps (W.contents self.old.inner) (W.contents self.new.inner) }
        ensures gone { IfErr result (λ error. IsTrue self.new.gone ↔ (error_kind error ≡ ErrorKind.BrokenPipe)) }
        ensures as_before { OnOk result (self.new.gone ≡ self.old.gone) }
    {
        let flushed = self.inner.flush();
        if let Err(error) = &flushed {
            self.gone = is_broken_pipe(error);
        }
        flushed
    }
}

impl<W: Write> Output for PipeWriter<W> {
    ghost reader_gone = { λ writer. writer.gone };

    fn reader_is_gone(&self) -> bool {
        self.gone
    }
}

/// Bytes in memory, whose reader is never gone.
impl Output for Vec<u8> {
    ghost reader_gone = { λ _. false };

    fn reader_is_gone(&self) -> bool {
        false
    }
}
