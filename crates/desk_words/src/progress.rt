//! Shows a line of progress on a terminal while lines are read or written: it counts them, and rewrites the line at most twice
//! a second.

use crate::Output;
use std::cell::Cell;
use std::io;
use std::io::{IsTerminal, Read, Stderr, Write};
use std::rt::Clock;
use std::time::{Duration, Instant};

/// How many lines come by before progress is shown.
const FIRST_TOLD: u64 = 1_000_000;

/// How many lines come by between two looks at the clock.
const LINES_A_LOOK: u64 = 4_096;

/// The least time from one rewriting of the line to the next, in milliseconds.
const LEAST_PAUSE: u64 = 500;

/// The text that takes the line of progress off a terminal.
const BLANK: &[u8] = b"\r                                                \r";

/// How much of a file of known length came by.
#[derive(Clone, Copy)]
struct Part {
    bytes: u64,
    length: u64,
}

impl Part {
    /// Returns how many of a hundred parts came by.
    fn percent(self) -> u64 {
        let percent = u128::from(self.bytes) * 100 / u128::from(self.length.max(1));
        percent.min(100) as u64
    }

    /// Returns how many seconds the rest takes at the pace so far, if so many have passed.
    fn left(self, passed: u64) -> u64 {
        let rest = self.length.saturating_sub(self.bytes);
        let left = u128::from(passed) * u128::from(rest) / u128::from(self.bytes.max(1));
        left.min(u128::from(u64::MAX)) as u64
    }
}

/// The line of progress on a terminal.
#[derive(Drop)]
pub struct ProgressLine<'a, C> {
    clock: &'a C,
    terminal: Stderr,
    begun: Option<Instant>,
    told: Cell<Option<Instant>>,
    stands: Cell<bool>,
}

impl<C: Clock> ProgressLine<'_, C> {
    /// Returns the line on standard error, or `None` if that is no terminal. The line does not stand there yet.
    pub fn on(clock: &C, errors: Stderr) -> Option<ProgressLine<'_, C>> {
        if !errors.is_terminal() {
            return None;
        }
        Some(ProgressLine {
            clock,
            terminal: errors,
            begun: Instant::now(clock).ok(),
            told: Cell::new(None),
            stands: Cell::new(false),
        })
    }

    /// Returns whether the line was rewritten too recently to be rewritten at this moment.
    fn is_fresh(&self, now: Instant) -> bool {
        match self.told.get() {
            Some(told) => now.duration_since(told) < Duration::from_millis(LEAST_PAUSE),
            None => false,
        }
    }

    /// Rewrites the line, unless it is fresh. If the clock or the terminal fails, the line stays as it is.
    fn tell(&self, lines: u64, done: &str, part: Option<Part>) {
        let Ok(now) = Instant::now(self.clock) else {
            return;
        };
        if self.is_fresh(now) {
            return;
        }
        self.told.set(Some(now));
        self.stands.set(true);
        let mut terminal = self.terminal;
        let _told = write!(terminal, "\rtapebox: {lines} lines {done}");
        if let (Some(part), Some(begun)) = (part, self.begun) {
            let passed = now.duration_since(begun).as_secs();
            let (percent, left) = (part.percent(), part.left(passed));
            let _told = write!(terminal, ", {percent} %, {left} s left   ");
        }
    }

    /// Takes the line off the terminal, if it stands there.
    pub fn clear(&self) {
        if self.stands.replace(false) {
            let mut terminal = self.terminal;
            let _cleared = terminal.write_all(BLANK);
        }
    }
}

/// The count of the lines that come by, shown on a line of progress if there is one.
#[derive(Drop)]
struct LineCount<'a, C> {
    progress: Option<&'a ProgressLine<'a, C>>,
    done: &'static str,
    length: Option<u64>,
    bytes: u64,
    lines: u64,
    next_look: u64,
}

impl<'a, C: Clock> LineCount<'a, C> {
    /// Returns a count of no lines, of an input of so many bytes if that is known.
    fn new(
        progress: Option<&'a ProgressLine<'a, C>>,
        done: &'static str,
        length: Option<u64>,
    ) -> LineCount<'a, C> {
        LineCount {
            progress,
            done,
            length,
            bytes: 0,
            lines: 0,
            next_look: FIRST_TOLD,
        }
    }

    /// Returns how much came by, or `None` if the length is not known.
    fn part(&self) -> Option<Part> {
        let length = self.length?;
        Some(Part {
            bytes: self.bytes,
            length,
        })
    }

    /// Counts the lines that end in these bytes, and shows the count now and then. No bytes are the end, at which the line is
    /// taken off.
    fn count(&mut self, bytes: &[u8]) {
        let Some(progress) = self.progress else {
            return;
        };
        if bytes.is_empty() {
            progress.clear();
            return;
        }
        let ended = bytes.iter().filter(|byte| **byte == b'\n').count();
        self.lines = self.lines.saturating_add(ended as u64);
        self.bytes = self.bytes.saturating_add(bytes.len() as u64);
        if self.lines >= self.next_look {
            self.next_look = self.lines.saturating_add(LINES_A_LOOK);
            progress.tell(self.lines, self.done, self.part());
        }
    }
}

/// A reader whose lines are counted on a line of progress until its end.
#[derive(Drop)]
pub struct ToldReader<'a, R, C> {
    inner: R,
    count: LineCount<'a, C>,
}

impl<'a, R: Read, C: Clock> ToldReader<'a, R, C> {
    /// Shows how much is read of a reader, of so many bytes if that is known.
    pub fn new(
        inner: R,
        progress: Option<&'a ProgressLine<'a, C>>,
        length: Option<u64>,
    ) -> ToldReader<'a, R, C> {
        ToldReader {
            inner,
            count: LineCount::new(progress, "read", length),
        }
    }
}

impl<R: Read, C: Clock> Read for ToldReader<'_, R, C> {
    ghost remaining = { λ reader. R.remaining reader.inner };

    fn read(&mut self, buf: &mut [u8]) -> io::Result<usize> {
        let len = self.inner.read(buf)?;
        self.count.count(&buf[..len]);
        Ok(len)
    }
}

/// A writer whose lines are counted on a line of progress.
#[derive(Drop)]
pub struct ToldWriter<'a, W, C> {
    inner: W,
    count: LineCount<'a, C>,
}

impl<'a, W: Write, C: Clock> ToldWriter<'a, W, C> {
    /// Shows how much is written to a writer.
    pub fn new(inner: W, progress: Option<&'a ProgressLine<'a, C>>) -> ToldWriter<'a, W, C> {
        ToldWriter {
            inner,
            count: LineCount::new(progress, "written", None),
        }
    }
}

impl<W: Write, C: Clock> Write for ToldWriter<'_, W, C> {
    ghost contents = { λ writer. W.contents writer.inner };

    fn write(&mut self, buf: &[u8]) -> io::Result<usize> {
        let len = self.inner.write(buf)?;
        self.count.count(&buf[..len]);
        Ok(len)
    }

    fn flush(&mut self) -> io::Result<()> {
        self.inner.flush()
    }
}

impl<W: Output, C: Clock> Output for ToldWriter<'_, W, C> {
    ghost reader_gone = { λ writer. W.reader_gone writer.inner };

    fn reader_is_gone(&self) -> bool {
        self.inner.reader_is_gone()
    }
}

/// A writer to the terminal of the line of progress, which is taken off before anything is written.
#[derive(Drop)]
pub struct ClearedWriter<'a, W, C> {
    inner: W,
    progress: Option<&'a ProgressLine<'a, C>>,
}

impl<'a, W: Write, C: Clock> ClearedWriter<'a, W, C> {
    /// Takes the line off before anything is written to a writer.
    pub fn new(inner: W, progress: Option<&'a ProgressLine<'a, C>>) -> ClearedWriter<'a, W, C> {
        ClearedWriter { inner, progress }
    }
}

impl<W: Write, C: Clock> Write for ClearedWriter<'_, W, C> {
    ghost contents = { λ writer. W.contents writer.inner };

    fn write(&mut self, buf: &[u8]) -> io::Result<usize> {
        if let Some(progress) = self.progress {
            progress.clear();
        }
        self.inner.write(buf)
    }

    fn flush(&mut self) -> io::Result<()> {
        self.inner.flush()
    }
}
