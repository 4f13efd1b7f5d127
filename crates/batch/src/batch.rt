//! Answers a whole input line by line, and writes the answers and the report of the resulting tape.
ghost use Rattle.std.specs.Prelude.{◌≡◌, ◌+◌, ◌⊎◌, IfErr, IfOk, IfSome, OnOk, OnErr, Err, [], false};
ghost use Rattle.std.specs.Io.KnownBytes.{Appends, Keeps};
ghost use Rattle.std.specs.List.{flat_map};
ghost use Rattle.std.specs.Io.Take.{take_inner, take_limit};
ghost use Rattle.day_report.specs.Rows.{report_rows};
ghost use Rattle.day_report.specs.declared.report_fault.ReportFault.TheVariants.{OutOfMemory as RowsOutOfMemory};
ghost use Rattle.batch.specs.Batch.{INPUT_MOST, answer_line, tape_report};
ghost use Rattle.batch.specs.BatchEnds.{EndsAt, WritesBatch, Wrote};
ghost use Rattle.batch.specs.Finish.{EndsAfterStop, Finishes, day_text};
ghost use Rattle.whole_io.specs.Writing.{WritesPrefix};
ghost use Rattle.batch.specs.declared.batch_end.BatchEnd.TheVariants.{ReadFault, TooLarge, WriteFault as EndWriteFault};
ghost use Rattle.whole_io.specs.declared.writing_fault.WritingFault.TheVariants.{OutOfMemory, WriteFault as FailedWrite};

use crate::BatchEnd;
use crate::answer_buffer::AnswerBuffer;
use crate::day::{BatchDay, LineAnswer};
use crate::input::{INPUT_MOST, Input};
use crate::reading::{ReadInput, read_batch};
use day_report::{ReportFault, Row, rows, write_report};
use sale_matrix::Matrix;
use std::alloc::{AllocError, Global};
use std::io::{BufReader, Read, Take, Write};
use std::mem;
use std::thread::Threads;
use tape_core::IndexedTape;
use tape_types::NoGate;
use whole_io::{WriteFault, WritingFault, flush, write_text};

/// How many bytes are read at once.
const READ_PIECE: usize = 65_536;

/// Flushes the writer, and returns the end, or `WriteFault` if the flush failed.
fn flushed<W: Write>(writer: &mut W, end: BatchEnd) -> BatchEnd
    ensures end { (result ≡ end) ⊎ (result ≡ EndWriteFault) }
    ensures kept { Keeps (W.contents writer.old) (W.contents writer.new) }
{
    match flush(writer) {
        Ok(()) => end,
        Err(WriteFault) => BatchEnd::WriteFault,
    }
}

/// Writes answers, each on its line.
fn write_answers<W: Write>(
    answers: &[LineAnswer],
    buffer: &mut AnswerBuffer,
    writer: &mut W,
) -> Result<(), WriteFault>
    requires { buffer.old ≡ [] }
    ensures written { OnOk result (Appends (W.contents writer.old) (W.contents writer.new) (flat_map answer_line answers.now)) }
    ensures prefix { OnErr result (WritesPrefix (flat_map answer_line answers.now) (W.contents writer.old) (W.contents writer.new)) }
{
    for answer in answers {
        buffer.push_answer(answer);
        buffer.write_piece(writer)?;
    }
    buffer.write_to(writer)
}

/// The report rows of a tape, made by one worker, so no thread is started and the only error is `OutOfMemory`.
fn rows_by_one<T: Threads + Sync>(
    rt: &T,
    alloc: Global,
    tape: &IndexedTape,
) -> Result<Vec<Row>, ReportFault>
    ensures rows { IfOk result (λ rows. rows.items ≡ report_rows tape.now) }
    ensures fault { IfErr result (λ fault. fault ≡ RowsOutOfMemory) }
{
    rows(rt, alloc, tape, 1, &NoGate)
}

/// The text of the report of a tape.
fn report<T: Threads + Sync>(
    rt: &T,
    alloc: Global,
    tape: &IndexedTape,
) -> Result<Vec<u8>, AllocError>
    ensures { IfOk result (λ text. text.items ≡ tape_report tape.now) }
{
    let Ok(rows) = rows_by_one(rt, alloc, tape) else {
        return Err(AllocError);
    };
    let mut text = Vec::new(alloc);
    write_report(alloc, &rows, &mut text).map_err(|_| AllocError)?;
    Ok(text)
}

/// Writes a day: its answers, then the report of its tape unless memory ran out at one of the lines.
fn write_answered<T: Threads + Sync, W: Write>(
    rt: &T,
    alloc: Global,
    day: &BatchDay,
    buffer: &mut AnswerBuffer,
    writer: &mut W,
) -> Result<(), WritingFault>
    requires { buffer.old ≡ [] }
    ensures goes_on { OnOk result (day.now.is_stopped ≡ false) }
    ensures written { OnOk result (Appends (W.contents writer.old) (W.contents writer.new) (day_text day.now)) }
    ensures memory { result ≡ Err OutOfMemory
        → Appends (W.contents writer.old) (W.contents writer.new) (flat_map answer_line day.now.answers.items) }
    ensures fault { result ≡ Err FailedWrite → WritesPrefix (day_text day.now) (W.contents writer.old) (W.contents writer.new) }
{
    write_answers(&day.answers, buffer, writer)?;
    if day.is_stopped {
        return Err(WritingFault::OutOfMemory);
    }
    let text = report(rt, alloc, &day.tape)?;
    write_text(writer, &text)?;
    Ok(())
}

/// Writes what was read of a batch: a day, or the line of a refused header, for which `buffer` has room.
fn write_batch<T: Threads + Sync, W: Write>(
    rt: &T,
    alloc: Global,
    read: &ReadInput,
    buffer: &mut AnswerBuffer,
    writer: &mut W,
) -> BatchEnd
    requires { buffer.old ≡ [] }
    ensures finishes { Finishes read.now result (W.contents writer.old) (W.contents writer.new) }
{
    match read {
        ReadInput::Answered(day) => match write_answered(rt, alloc, day, buffer, writer) {
            Ok(()) => BatchEnd::Done,
            Err(WritingFault::WriteFault) => BatchEnd::WriteFault,
            Err(WritingFault::OutOfMemory) => BatchEnd::OutOfMemory,
        },
        ReadInput::HeaderRefused(fault) => {
            buffer.push_fault(*fault);
            match buffer.write_to(writer) {
                Ok(()) => BatchEnd::BadHeader,
                Err(WriteFault) => BatchEnd::WriteFault,
            }
        }
    }
}

/// Writes what was read of a batch, and flushes the writer.
fn finish_batch<T: Threads + Sync, W: Write>(
    rt: &T,
    alloc: Global,
    read: &ReadInput,
    buffer: &mut AnswerBuffer,
    writer: &mut W,
) -> BatchEnd
    requires { buffer.old ≡ [] }
    // A day at whose last answer memory ran out is not done: that answer's line is written, unless a write fails.
    ensures finishes { Finishes read.now result (W.contents writer.old) (W.contents writer.new) }
{
    match write_batch(rt, alloc, read, buffer, writer) {
        BatchEnd::WriteFault => BatchEnd::WriteFault,
        end => flushed(writer, end),
    }
}

/// The reader up to one byte beyond the longest input, which is enough to see that an input is too large.
fn limited<R: Read>(reader: &mut R) -> Take<&mut R>
    ensures limit { take_limit result ≡ INPUT_MOST + 1 }
    ensures inner { take_inner result ≡ reader.entry }
{
    reader.take(INPUT_MOST + 1)
}

/// Does what `batch_over` does, and also returns what was read, whole or up to where reading stopped, for a caller that needs
/// the day's tape or its answers. If memory ran out at a line, the answers were written and the end is `OutOfMemory`, unless a
/// read or a write failed or the input is too large.
pub fn batch_kept<T: Threads + Sync, R: Read, W: Write>(
    rt: &T,
    alloc: Global,
    matrix: Matrix,
    reader: &mut R,
    writer: &mut W,
) -> (BatchEnd, Option<ReadInput>)
    ensures wrote { IfSome (R.remaining reader.old) (λ input. Wrote matrix result.0 input (W.contents writer.old) (W.contents writer.new)) }
    ensures ends { IfSome (R.remaining reader.old) (EndsAt result.0) }
    ensures silent { (result.0 ≡ TooLarge) ⊎ (result.0 ≡ ReadFault) → writer.new ≡ writer.old }
    ensures stopped { IfSome result.1 (λ read. EndsAfterStop read result.0 (W.contents writer.old) (W.contents writer.new)) }
{
    let Ok(left) = BufReader::with_capacity(alloc, READ_PIECE, limited(reader)) else {
        return (BatchEnd::OutOfMemory, None);
    };
    // The buffer is allocated first, so writing a refusal for want of memory allocates none.
    let Ok(mut buffer) = AnswerBuffer::new(alloc) else {
        return (BatchEnd::OutOfMemory, None);
    };
    match read_batch(alloc, matrix, &mut Input::new(left)) {
        Ok(read) => (
            finish_batch(rt, alloc, &read, &mut buffer, writer),
            Some(read),
        ),
        Err(unread) => (
            BatchEnd::from(unread.end),
            unread.day.map(ReadInput::Answered),
        ),
    }
}

/// Reads a batch whole, and writes its answers and its report by the matrix, in large pieces that are flushed once at the end.
/// Returns how it ended, which says what was written.
pub fn batch_over<T: Threads + Sync, R: Read, W: Write>(
    rt: &T,
    alloc: Global,
    matrix: Matrix,
    reader: &mut R,
    writer: &mut W,
) -> BatchEnd
    ensures batch { WritesBatch matrix result (R.remaining reader.old) (W.contents writer.old) (W.contents writer.new) writer.old writer.new }
{
    let (end, _) = batch_kept(rt, alloc, matrix, reader, writer);
    end
}

/// Does what `batch_over` does, for a program that ends afterwards: the memory of what was read is not freed piece by piece but
/// left to the process's end.
pub fn last_batch<T: Threads + Sync, R: Read, W: Write>(
    rt: &T,
    alloc: Global,
    matrix: Matrix,
    reader: &mut R,
    writer: &mut W,
) -> BatchEnd
    ensures batch { WritesBatch matrix result (R.remaining reader.old) (W.contents writer.old) (W.contents writer.new) writer.old writer.new }
{
    let (end, read) = batch_kept(rt, alloc, matrix, reader, writer);
    mem::forget(read);
    end
}
