//! Reads a table and writes its readable tape.
ghost use Rattle.std.specs.Prelude.{◌≡◌, ◌≢◌, ◌⊎◌, ◌+◌, ◌<◌, ◌^◌, [], Err, IfErr, IfOk, IfSome, OnErr, OnOk, length, true};
ghost use Rattle.std.specs.Io.KnownBytes.{Appends};
ghost use Rattle.csv.specs.Writing.{default_writer, row_text};
ghost use Rattle.whole_io.specs.Writing.{WritesPrefix};
ghost use Rattle.tape_core.specs.Answers.{answers};
ghost use Rattle.csv_days.specs.Days.{AnswersMore, HasAnswered, first_tape, lists_all};
ghost use Rattle.csv_messages.specs.Tables.{FIRST_ROW};
ghost use Rattle.csv_days.specs.Refusals.{AreRefusals};
ghost use Rattle.csv_days.specs.StaleRows.{first_stale};
ghost use Rattle.csv_days.specs.TableEnds.{IsMessagesEnd, IsTableEnd, WritesTable, WritesTablePart};
ghost use Rattle.csv_days.specs.TapeRows.{tape_columns, rows_text, tape_rows, tape_text, text_from};
ghost use Rattle.csv_days.specs.declared.table_end.TableEnd.TheVariants.{OutOfMemory, WriteFault};

use crate::day::TableDay;
use crate::table_end::flushed;
use crate::tape_row::{head_text, put_next};
use crate::{Refusals, TableEnd};
use csv::ByteRecord;
use csv_lines::{into_text, lines_in};
use csv_messages::read_table;
use reports::Message;
use sale_matrix::Matrix;
use std::alloc::{AllocError, Global};
use std::io::{Read, Write};
use whole_io::{WritingFault, write_part};

/// How many rows are written at once.
const ROWS_AT_ONCE: usize = 512;

/// Makes the lines of a day's next rows in the memory of a text that is used again.
fn lines_of(
    day: &mut TableDay,
    fields: &mut ByteRecord,
    text: Vec<u8>,
    messages: &[Message],
) -> Result<Vec<u8>, AllocError>
    requires few { day.old.row + length messages.now < 2 ^ 64 }
    requires listed { lists_all day.old.tape messages.now ≡ true }
    ensures text { IfOk result (λ text. text.items ≡ rows_text (tape_rows day.old.tape messages.now)) }
    ensures more { OnOk result (AnswersMore day.old day.new messages.now) }
{
    let mut writer = lines_in(text);
    for message in messages {
        put_next(day, *message, &mut writer, fields)?;
    }
    into_text(writer)
}

/// Writes a part of the text, and makes the lines of a day's next rows in its memory.
#[tactic(auto, using(crate::proofs::TapeLemmas::written_prefix))]
fn next_lines<W: Write>(
    day: &mut TableDay,
    fields: &mut ByteRecord,
    text: Vec<u8>,
    messages: &[Message],
    writer: &mut W,
) -> Result<Vec<u8>, WritingFault>
    requires few { day.old.row + length messages.now < 2 ^ 64 }
    requires listed { lists_all day.old.tape messages.now ≡ true }
    ensures text { IfOk result (λ lines. lines.items ≡ rows_text (tape_rows day.old.tape messages.now)) }
    ensures more { OnOk result (AnswersMore day.old day.new messages.now) }
    ensures written { OnOk result (Appends (W.contents writer.old) (W.contents writer.new) text.items) }
    ensures prefix { OnErr result (WritesPrefix text.items (W.contents writer.old) (W.contents writer.new)) }
{
    write_part(writer, &text)?;
    Ok(lines_of(day, fields, text, messages)?)
}

/// Writes the line of the columns' names, and then the rows of messages as a day answers them, many at once.
fn write_rows<W: Write>(
    alloc: Global,
    day: &mut TableDay,
    head: Vec<u8>,
    messages: &[Message],
    writer: &mut W,
) -> Result<(), WritingFault>
    requires head { head.items ≡ row_text default_writer tape_columns }
    requires fresh { HasAnswered day.old.tape [] day.old }
    requires listed { lists_all day.old.tape messages.now ≡ true }
    requires few { length messages.now + FIRST_ROW < 2 ^ 64 }
    ensures refused { OnOk result (AreRefusals (answers day.old.tape messages.now) day.new.refusals) }
    ensures stale { OnOk result (day.new.refusals.stale ≡ first_stale day.old.tape messages.now) }
    ensures written { OnOk result (Appends (W.contents writer.old) (W.contents writer.new) (text_from day.old.tape messages.now)) }
    ensures prefix { OnErr result (WritesPrefix (text_from day.old.tape messages.now) (W.contents writer.old) (W.contents writer.new)) }
{
    let mut fields = ByteRecord::new(alloc);
    let mut text = head;
    let mut rest = messages;
    while !rest.is_empty() {
        let (next, behind) = rest.split_at(rest.len().min(ROWS_AT_ONCE));
        text = next_lines(day, &mut fields, text, next, writer)?;
        rest = behind;
    }
    write_part(writer, &text)
}

/// Answers messages in order by a tape of the names in them, in the order in which they first appear, and writes the readable
/// tape as `tape_over` does. Returns what the tape refused.
///
/// If the tape is not written whole the error says why. At a `WriteFault` a part of it from the front was written, and at
/// `OutOfMemory` such a part or nothing; at every other error nothing was.
pub fn write_tape<W: Write>(
    alloc: Global,
    matrix: Matrix,
    messages: &[Message],
    writer: &mut W,
) -> Result<Refusals, TableEnd>
    requires few { length messages.now + FIRST_ROW < 2 ^ 64 }
    ensures refused { IfOk result (AreRefusals (answers (first_tape matrix messages.now) messages.now)) }
    ensures stale { IfOk result (λ refusals. refusals.stale ≡ first_stale (first_tape matrix messages.now) messages.now) }
    ensures written { OnOk result (Appends (W.contents writer.old) (W.contents writer.new) (tape_text matrix messages.now)) }
    ensures end { IfErr result (IsMessagesEnd messages.now) }
    ensures silent { result ≢ Err WriteFault → result ≢ Err OutOfMemory → OnErr result (writer.new ≡ writer.old) }
    ensures prefix { (result ≡ Err WriteFault) ⊎ (result ≡ Err OutOfMemory)
        → WritesPrefix (tape_text matrix messages.now) (W.contents writer.old) (W.contents writer.new) }
{
    let mut day = TableDay::of_names(alloc, matrix, messages)?;
    let head = head_text(alloc)?;
    write_rows(alloc, &mut day, head, messages, writer)?;
    flushed(writer, &day.refusals)
}

/// Reads a table whole, answers its messages in order by a tape of the names in it, in the order in which they first appear,
/// and writes the readable tape: a row for each message, with the figures of its symbol after it. Returns what the tape
/// refused. The rows are written while they are made, many at once, so the text is never held whole. What was written is
/// flushed at the end.
///
/// If the tape is not written whole the error says why. At a `WriteFault` a part of it from the front was written, and at
/// `OutOfMemory` such a part or nothing; at every other error nothing was.
pub fn tape_over<R: Read + Drop, W: Write>(
    alloc: Global,
    matrix: Matrix,
    reader: R,
    writer: &mut W,
) -> Result<Refusals, TableEnd>
    ensures written { IfSome (R.remaining reader) (λ input. IfOk result (λ refusals.
        WritesTable tape_text matrix input refusals (W.contents writer.old) (W.contents writer.new))) }
    ensures end { IfSome (R.remaining reader) (λ input. IfErr result (IsTableEnd input)) }

    // For every reader: nothing is written at any other error than these two, at which a part from the front may be.
    ensures silent { result ≢ Err WriteFault → result ≢ Err OutOfMemory → OnErr result (writer.new ≡ writer.old) }
    ensures prefix { (result ≡ Err WriteFault) ⊎ (result ≡ Err OutOfMemory)
        → IfSome (R.remaining reader) (λ input. WritesTablePart tape_text matrix input (W.contents writer.old) (W.contents writer.new)) }
{
    let messages = read_table(alloc, reader)?;
    write_tape(alloc, matrix, &messages, writer)
}
