//! Follows a running day, and writes the readable tape of its entries as they come.
ghost use Rattle.std.specs.Prelude.{◌≡◌, ◌⊎◌, Err, IfErr, IfSome, IsOk, IsSome, OnOk, Some};
ghost use Rattle.std.specs.Io.Buffered.{writer_contents};
ghost use Rattle.feed_ends.specs.declared.fault.Fault.TheVariants.{Write as WriteFault};
ghost use Rattle.day_terms.specs.Arguments.{words_of};
ghost use Rattle.day_terms.specs.NamedDays.{NameFollow};
ghost use Rattle.command_line.specs.Statuses.{status_code, status_text};
ghost use Rattle.command_line.specs.declared.status.Status.TheVariants.{Done};
ghost use Rattle.std.specs.Io.KnownBytes.{Keeps};
ghost use Rattle.whole_io.specs.Lines.{WritesLines};
ghost use Rattle.whole_io.specs.Writing.{WritesPrefix};
ghost use Rattle.desk_words.specs.Outputs.{IsQuietIfGone};
ghost use Rattle.desk_words.specs.Watches.{IsRunStatus, IsWatchStatus, WritesPartOf, WritesSome, WritesTapeOf, WritesWhole, entry_line, row_fault};

use crate::Output;
use crate::run_status::ended_status;
use crate::saying::{say_bad_arguments, say_ended, say_status};
use command_line::{Hint, Status, Word};
use csv_days::{EntryRows, write_head};
use day_terms::{FollowDay, WordsFault};
use feed_ends::Fault;
use feed_follower::{EntrySink, FollowSockets, SinkFault, follow_tape};
use std::alloc::Global;
use std::io::{BufWriter, Write};
use std::net::{Net, TcpListener, TcpStream};
use std::sync::Wait;
use std::thread::Threads;
use tape_core::{Entry, RowFigures};
use whole_io::{WritingFault, flush};

/// A sink that writes the row of each entry of a followed tape.
#[derive(Drop)]
pub(crate) struct RowSink<W: Write + Drop> {
    pub(crate) rows: EntryRows,
    pub(crate) writer: W,
}

/// Returns the sink's fault for a row that was not written.
pub(crate) fn sink_fault(fault: WritingFault) -> SinkFault
    ensures { result ≡ row_fault fault }
{
    match fault {
        WritingFault::OutOfMemory => SinkFault::OutOfMemory,
        WritingFault::WriteFault => SinkFault::Write,
    }
}

impl<W: Write + Drop> EntrySink for RowSink<W> {
    ghost text = { entry_line };

    ghost contents = { λ sink. W.contents sink.writer };

    fn takes_nothing(&self) -> bool {
        false
    }

    fn take(&mut self, entry: &Entry, after: &RowFigures) -> Result<(), SinkFault> {
        let written = self.rows.write(entry, after, &mut self.writer);
        written.map_err(sink_fault)
    }

    fn flush(&mut self) -> Result<(), SinkFault> {
        self.writer.flush().map_err(|_| SinkFault::Write)
    }

    #[tactic(auto, using(crate::proofs::WatchLemmas::keeps_same))]
    fn restarted(&mut self) -> Result<(), SinkFault> {
        Err(SinkFault::Write) // Rows that are written can't be taken back.
    }
}

/// Returns the fault of a run whose last flush failed: its own fault, else a write fault.
fn unflushed(ended: Result<(), Fault>) -> Fault
    ensures done { OnOk ended (result ≡ WriteFault) }
    ensures fault { IfErr ended (λ fault. result ≡ fault) }
{
    match ended {
        Ok(()) => Fault::Write,
        Err(fault) => fault,
    }
}

/// Flushes what a run has written, and returns how the run ended after that.
pub(crate) fn flushed<W: Write>(ended: Result<(), Fault>, writer: &mut W) -> Result<(), Fault>
    ensures kept { Keeps (W.contents writer.old) (W.contents writer.new) }
    ensures done { IsOk result → IsOk ended }
    ensures fault { IfErr ended (λ fault. result ≡ Err fault) }
    ensures unflushed { OnOk ended (IfErr result (λ fault. fault ≡ WriteFault)) }
{
    match flush(writer) {
        Ok(()) => ended,
        Err(_) => Err(unflushed(ended)),
    }
}

/// Follows the day of these arguments, writes the rows of its tape to a writer as they come, and returns the writer.
#[tactic(auto, using(crate::proofs::WatchLemmas::head_part, crate::proofs::WatchLemmas::tape_part))]
fn watch_day<T, W>(rt: &T, alloc: Global, day: FollowDay, writer: W) -> (Result<(), Fault>, W)
where
    T: Threads + Wait + Net<Listener = TcpListener, Stream = TcpStream> + Sync,
    W: Write + Send + Drop,
    ensures whole { OnOk result.0 (WritesTapeOf day.terms.day.listing day.terms.day.matrix day.terms.day.limit (W.contents writer) (W.contents result.1)) }
    ensures part { (result.1 ≡ writer) ⊎ WritesPartOf day.terms.day.listing day.terms.day.matrix day.terms.day.limit (W.contents writer) (W.contents result.1) }
{
    let Ok(sockets) = FollowSockets::open(rt, day.ports, day.retransmission) else {
        return (Err(Fault::Read), writer);
    };
    let mut writer = writer;
    if let Err(fault) = write_head(alloc, &mut writer) {
        return (Err(sink_fault(fault).fault()), writer);
    }
    let sink = RowSink {
        rows: EntryRows::new(alloc),
        writer,
    };
    let (ended, sink) = follow_tape(rt, alloc, day.terms, sockets, sink);
    let RowSink {
        rows: _,
        mut writer,
    } = sink;
    let ended = flushed(ended, &mut writer);
    (ended, writer)
}

/// How a watched day ended whose rows were written through a buffer.
#[derive(Drop)]
pub(crate) struct Watched<W> {
    /// The fault that ended the day, if any.
    pub(crate) ended: Result<(), Fault>,
    /// Whether whoever read the rows is gone.
    pub(crate) reader_gone: bool,
    /// The writer, unless the buffer could not be allocated or what it held could not be written.
    pub(crate) writer: Option<W>,
}

/// Flushes the buffer and takes it off its writer. If only the flush failed, the run ended by a write fault.
pub(crate) fn unbuffered<W: Output + Drop>(
    ended: Result<(), Fault>,
    buffer: BufWriter<W>,
) -> Watched<W>
    ensures kept { IfSome result.writer (λ inner. Keeps (writer_contents W.contents buffer) (W.contents inner)) }
    ensures some { OnOk result.ended (IsSome result.writer) }
    ensures done { IsOk result.ended → IsOk ended }
    ensures fault { IfErr ended (λ fault. result.ended ≡ Err fault) }
    ensures unflushed { OnOk ended (IfErr result.ended (λ fault. fault ≡ WriteFault)) }
    ensures gone { IfSome result.writer (λ inner. result.reader_gone ≡ W.reader_gone inner) }
{
    let is_gone = buffer.get_ref().reader_is_gone();
    match buffer.into_inner() {
        Ok(inner) => Watched {
            ended,
            reader_gone: inner.reader_is_gone(),
            writer: Some(inner),
        },
        Err(_) => Watched {
            ended: Err(unflushed(ended)),
            reader_gone: is_gone,
            writer: None,
        },
    }
}

/// Watches a day, and writes its rows through a buffer.
fn watch_buffered<T, W>(rt: &T, alloc: Global, day: FollowDay, writer: W) -> Watched<W>
where
    T: Threads + Wait + Net<Listener = TcpListener, Stream = TcpStream> + Sync,
    W: Output + Send + Drop,
    ensures whole { OnOk result.ended (WritesWhole W.contents day.terms.day.listing day.terms.day.matrix day.terms.day.limit writer result.writer) }
    ensures part { WritesSome W.contents day.terms.day.listing day.terms.day.matrix day.terms.day.limit writer result.writer }
    ensures gone { IfSome result.writer (λ inner. result.reader_gone ≡ W.reader_gone inner) }
{
    let Ok(buffer) = BufWriter::new(alloc, writer) else {
        return Watched {
            ended: Err(Fault::Memory),
            reader_gone: false,
            writer: None,
        };
    };
    let (ended, buffer) = watch_day(rt, alloc, day, buffer);
    unbuffered(ended, buffer)
}

/// Watches a running day as a follower, writes the readable tape of its entries to a writer as they come, and returns the
/// status and the writer. A buffer before the writer is flushed whenever no further entry is ready. If the buffer cannot be
/// allocated, or what it holds cannot be written at the end, no writer is returned. What goes wrong is said on `errors` in one
/// line, but not that whoever read the rows is gone.
///
/// The status is `Done` if the whole tape was written, `ReadFault` for a read fault or a socket that cannot be opened,
/// `WriteFault`, `OutOfMemory`, `NotStarted` if a thread could not be started, and `Disagrees` if the tape disagrees.
#[tactic(auto, using(crate::proofs::WatchLemmas::run_status, crate::proofs::WatchLemmas::done_well))]
pub fn watch<T, W, E>(
    rt: &T,
    alloc: Global,
    day: FollowDay,
    writer: W,
    errors: &mut E,
) -> (Status, Option<W>)
where
    T: Threads + Wait + Net<Listener = TcpListener, Stream = TcpStream> + Sync,
    W: Output + Send + Drop,
    E: Write,
    ensures known { IsRunStatus (status_code result.0) }
    ensures whole { result.0 ≡ Done → WritesWhole W.contents day.terms.day.listing day.terms.day.matrix day.terms.day.limit writer result.1 }
    ensures part { WritesSome W.contents day.terms.day.listing day.terms.day.matrix day.terms.day.limit writer result.1 }
    ensures quiet { result.0 ≡ Done → errors.new ≡ errors.old }
    ensures gone { IfSome result.1 (λ back. IsQuietIfGone (W.reader_gone back) result.0 errors.old errors.new) }
    ensures said { WritesPrefix (status_text result.0) (E.contents errors.old) (E.contents errors.new) }
    ensures lines { WritesLines (E.contents errors.old) (E.contents errors.new) }
{
    let Watched {
        ended,
        reader_gone,
        writer,
    } = watch_buffered(rt, alloc, day, writer);
    let status = ended_status(ended);
    say_ended(errors, status, reader_gone);
    (status, writer)
}

/// Watches the day that the arguments after `watch` name in a row, each ended by a zero byte, as `watch` does. With bad
/// arguments it reads and writes nothing, says how `watch` is used, and returns the status `Bad`.
#[tactic(auto, using(crate::proofs::LineLemmas::bad_lines))]
pub fn watch_row<T, W, E>(
    rt: &T,
    alloc: Global,
    words: &[u8],
    writer: W,
    errors: &mut E,
) -> (Status, Option<W>)
where
    T: Threads + Wait + Net<Listener = TcpListener, Stream = TcpStream> + Sync,
    W: Output + Send + Drop,
    E: Write,
    ensures known { IsWatchStatus (status_code result.0) }
    ensures whole { result.0 ≡ Done → (day : FollowDay) × NameFollow (words_of words.now) day × WritesWhole W.contents day.terms.day.listing day.terms.day.matrix day.terms.day.limit writer result.1 }
    ensures part { (result.1 ≡ Some writer) ⊎ ((day : FollowDay) × NameFollow (words_of words.now) day × WritesSome W.contents day.terms.day.listing day.terms.day.matrix day.terms.day.limit writer result.1) }
    ensures quiet { result.0 ≡ Done → errors.new ≡ errors.old }
    ensures gone { IfSome result.1 (λ back. IsQuietIfGone (W.reader_gone back) result.0 errors.old errors.new) }
    ensures said { WritesLines (E.contents errors.old) (E.contents errors.new) }
{
    match FollowDay::read(alloc, words) {
        Ok(day) => watch(rt, alloc, day, writer, errors),
        Err(WordsFault::BadArguments) => {
            say_bad_arguments(alloc, errors, Ok(Hint::Use(Word::Watch)));
            (Status::Bad, Some(writer))
        }
        Err(WordsFault::OutOfMemory) => {
            say_status(errors, Status::OutOfMemory);
            (Status::OutOfMemory, Some(writer))
        }
    }
}
