//! Writers of a day's report that keep the cause of their last error.
ghost use Rattle.std.specs.Prelude.{◌≡◌, IfErr, None, OnOk, Option, Some};
ghost use Rattle.std.specs.Io.{WritesAtMost};
ghost use Rattle.std.specs.Io.KnownBytes.{Keeps, WriteAppends};
ghost use Rattle.std.specs.IoError.{error_kind};
ghost use Rattle.tapebox.specs.Outlets.{write_cause_of};
ghost use Rattle.tapebox.specs.declared.write_cause.WriteCause.{WriteCause};

use crate::write_cause::WriteCause;
use desk_words::Output;
use std::io;
use std::io::Write;

/// A writer that knows the cause of its last error, and whether the reader of what it writes is gone.
pub trait Outlet: Output {
    // The cause of its last error, if it had one.
    ghost write_cause: { Self → Option WriteCause };

    /// Returns the cause of its last error, or `None` if it had none.
    fn write_cause(&self) -> Option<WriteCause>
        ensures { result ≡ write_cause self.now };
}

/// A writer that keeps the cause of its last error.
#[derive(Drop)]
pub struct CauseWriter<W> {
    inner: W,
    cause: Option<WriteCause>,
}

impl<W> CauseWriter<W> {
    /// Returns a writer that had no error so far.
    pub fn new(inner: W) -> CauseWriter<W>
        ensures inner { result.inner ≡ inner }
        ensures cause { result.cause ≡ None }
    {
        CauseWriter { inner, cause: None }
    }
}

impl<W: Write> Write for CauseWriter<W> {
    ghost contents = { λ writer. W.contents writer.inner };

    fn write(&mut self, buf: &[u8]) -> io::Result<usize>
        ensures bound { WritesAtMost result buf.now }
        ensures bytes { WriteAppends (W.contents self.old.inner) (W.contents self.new.inner) result buf.now }
        ensures cause { IfErr result (λ error. self.new.cause ≡ Some (write_cause_of (error_kind error))) }
        ensures as_before { OnOk result (self.new.cause ≡ self.old.cause) }
    {
        let written = self.inner.write(buf);
        if let Err(error) = &written {
            self.cause = Some(WriteCause::of(error.kind()));
        }
        written
    }

    fn flush(&mut self) -> io::Result<()>
        ensures bytes { Keeps (W.contents self.old.inner) (W.contents self.new.inner) }
        ensures cause { IfErr result (λ error. self.new.cause ≡ Some (write_cause_of (error_kind error))) }
        ensures as_before { OnOk result (self.new.cause ≡ self.old.cause) }
    {
        let flushed = self.inner.flush();
        if let Err(error) = &flushed {
            self.cause = Some(WriteCause::of(error.kind()));
        }
        flushed
    }
}

impl<W: Output> Output for CauseWriter<W> {
    ghost reader_gone = { λ writer. W.reader_gone writer.inner };

    fn reader_is_gone(&self) -> bool {
        self.inner.reader_is_gone()
    }
}

impl<W: Output> Outlet for CauseWriter<W> {
    ghost write_cause = { λ writer. writer.cause };

    fn write_cause(&self) -> Option<WriteCause> {
        self.cause
    }
}
