//! Reads a table and writes what became of each of its reports.
ghost use Rattle.std.specs.Prelude.{◌≡◌, ◌≢◌, ◌⊎◌, ◌+◌, ◌≤◌, ◌<◌, ◌^◌, ◌++◌, Err, IfErr, IfOk, IfSome, OnErr, OnOk, length};
ghost use Rattle.std.specs.Io.KnownBytes.{Appends};
ghost use Rattle.csv.specs.Writing.{default_writer, row_text};
ghost use Rattle.csv_lines.specs.Lines.{IsAtLineStart, lines_text};
ghost use Rattle.whole_io.specs.Writing.{WritesPrefix};
ghost use Rattle.csv_messages.specs.Tables.{FIRST_ROW};
ghost use Rattle.tape_core.specs.Answers.{answers};
ghost use Rattle.csv_days.specs.Days.{first_tape};
ghost use Rattle.csv_days.specs.Explained.{entry_line, explain_text, explained_at, explained_head, explained_names, explained_rows, explained_text, explained_to};
ghost use Rattle.csv_days.specs.Accounts.{IsAccount};
ghost use Rattle.csv_days.specs.ExplainedLaws.{CancelledSetNothing, RowsAddUp, RowsOfFigures, RowsOfOwnFigures, RowsOfReports};
ghost use Rattle.csv_days.specs.Refusals.{AreRefusals};
ghost use Rattle.csv_days.specs.StaleRows.{first_stale};
ghost use Rattle.csv_days.specs.TableEnds.{IsMessagesEnd, IsTableEnd, WritesTable, WritesTablePart};
ghost use Rattle.csv_days.specs.declared.table_end.TableEnd.TheVariants.{OutOfMemory, WriteFault};
ghost use Rattle.whole_io.specs.declared.writing_fault.WritingFault.TheVariants.{OutOfMemory as NoMemory};

use crate::account::Account;
use crate::explained::{explained_head, put_explained};
use crate::table_end::flushed;
use crate::{Refusals, TableEnd};
use csv::{ByteRecord, Writer};
use csv_lines::{into_text, lines_in};
use csv_messages::read_table;
use reports::Message;
use sale_matrix::Matrix;
use std::alloc::{AllocError, Global};
use std::io::{Read, Write};
use whole_io::{WritingFault, write_part};

/// How many entries are written at once.
const ENTRIES_AT_ONCE: usize = 512;

/// Adds the line of the report at an index of the entries, or nothing if the entry is no report.
fn put_entry(
    account: &Account,
    index: usize,
    writer: &mut Writer<Vec<u8>>,
    fields: &mut ByteRecord,
) -> Result<(), AllocError>
    requires index { index < length account.now.day.tape.entries }
    requires account { IsAccount account.now }
    requires start { IsAtLineStart writer.old }
    ensures start { OnOk result (IsAtLineStart writer.new) }
    ensures text { OnOk result (lines_text writer.new ≡ lines_text writer.old
        ++ entry_line (explained_at account.now.day.tape account.now.rows.items index)) }
{
    match account.explained_at(index) {
        Some(row) => put_explained(writer, fields, &row),
        None => Ok(()),
    }
}

/// Makes the lines of the reports at the indexes `from..to` of a tape's entries, in the memory of a text that is used again.
fn lines_of(
    account: &Account,
    fields: &mut ByteRecord,
    text: Vec<u8>,
    from: usize,
    to: usize,
) -> Result<Vec<u8>, AllocError>
    requires order { from ≤ to }
    requires within { to ≤ length account.now.day.tape.entries }
    requires account { IsAccount account.now }
    ensures { IfOk result (λ lines. explained_to account.now.day.tape account.now.rows.items to
        ≡ explained_to account.now.day.tape account.now.rows.items from ++ lines.items) }
{
    let mut writer = lines_in(text);
    for index in from..to {
        put_entry(account, index, &mut writer, fields)?;
    }
    into_text(writer)
}

/// Writes a part of the text, and makes the lines of the next reports in its memory.
fn next_lines<W: Write>(
    account: &Account,
    fields: &mut ByteRecord,
    text: Vec<u8>,
    from: usize,
    to: usize,
    writer: &mut W,
) -> Result<Vec<u8>, WritingFault>
    requires order { from ≤ to }
    requires within { to ≤ length account.now.day.tape.entries }
    requires account { IsAccount account.now }
    ensures lines { IfOk result (λ lines. explained_to account.now.day.tape account.now.rows.items to
        ≡ explained_to account.now.day.tape account.now.rows.items from ++ lines.items) }
    ensures written { OnOk result (Appends (W.contents writer.old) (W.contents writer.new) text.items) }
    ensures prefix { OnErr result (WritesPrefix text.items (W.contents writer.old) (W.contents writer.new)) }
{
    write_part(writer, &text)?;
    Ok(lines_of(account, fields, text, from, to)?)
}

/// Writes the line of the columns' names, and then the rows of the reports of a tape, many at once.
fn write_rows<W: Write>(
    alloc: Global,
    account: &Account,
    head: Vec<u8>,
    writer: &mut W,
) -> Result<(), WritingFault>
    requires head { head.items ≡ row_text default_writer explained_names }
    requires account { IsAccount account.now }
    ensures written { OnOk result (Appends (W.contents writer.old) (W.contents writer.new)
        (explained_text (explained_rows account.now.day.tape account.now.rows.items))) }
    ensures prefix { OnErr result (WritesPrefix
        (explained_text (explained_rows account.now.day.tape account.now.rows.items)) (W.contents writer.old) (W.contents writer.new)) }
{
    let count = account.day.tape.entries().len();
    let mut fields = ByteRecord::new(alloc);
    let mut text = head;
    let mut from = 0;
    while from < count {
        let to = from + (count - from).min(ENTRIES_AT_ONCE);
        text = next_lines(account, &mut fields, text, from, to, writer)?;
        from = to;
    }
    write_part(writer, &text)
}

/// Writes the line of the columns' names, with which an explanation of reports begins.
///
/// Errors: `OutOfMemory` before anything is written, and `WriteFault` if a write fails or takes no byte; then a prefix of the
/// line has been written and nothing else. The writer is not flushed.
pub fn write_explained_head<W: Write>(alloc: Global, writer: &mut W) -> Result<(), WritingFault>
    ensures written { OnOk result (Appends (W.contents writer.old) (W.contents writer.new) explained_head) }
    ensures memory { result ≡ Err NoMemory → writer.new ≡ writer.old }
    ensures prefix { OnErr result (WritesPrefix explained_head (W.contents writer.old) (W.contents writer.new)) }
{
    let head = explained_head(alloc)?;
    write_part(writer, &head)
}

/// Answers messages in order by a tape of the names in them, in the order in which they first appear, and explains each report
/// that the tape admitted, as `explain_over` does. Returns what the tape refused.
///
/// If the text is not written whole the error says why. At a `WriteFault` a part of it from the front was written, and at
/// `OutOfMemory` such a part or nothing; at every other error nothing was.
pub fn write_explained<W: Write>(
    alloc: Global,
    matrix: Matrix,
    messages: &[Message],
    writer: &mut W,
) -> Result<Refusals, TableEnd>
    requires few { length messages.now + FIRST_ROW < 2 ^ 64 }
    ensures refused { IfOk result (AreRefusals (answers (first_tape matrix messages.now) messages.now)) }
    ensures stale { IfOk result (λ refusals. refusals.stale ≡ first_stale (first_tape matrix messages.now) messages.now) }
    ensures written { OnOk result (Appends (W.contents writer.old) (W.contents writer.new) (explain_text matrix messages.now)) }
    ensures end { IfErr result (IsMessagesEnd messages.now) }
    ensures silent { result ≢ Err WriteFault → result ≢ Err OutOfMemory → OnErr result (writer.new ≡ writer.old) }
    ensures prefix { (result ≡ Err WriteFault) ⊎ (result ≡ Err OutOfMemory)
        → WritesPrefix (explain_text matrix messages.now) (W.contents writer.old) (W.contents writer.new) }
{
    let account = Account::of_messages(alloc, matrix, messages)?;
    let head = explained_head(alloc)?;
    write_rows(alloc, &account, head, writer)?;
    flushed(writer, &account.day.refusals)
}

/// Reads a table whole, answers its messages in order by a tape of the names in it, in the order in which they first appear,
/// and explains each report that the tape admitted: a row by rising tape number, with the report as it is after all messages,
/// and the figures that it sets. Returns what the tape refused. The rows are written while they are made, many at once, so the
/// text is never held whole. What was written is flushed at the end.
///
/// If the text is not written whole the error says why. At a `WriteFault` a part of it from the front was written, and at
/// `OutOfMemory` such a part or nothing; at every other error nothing was.
pub fn explain_over<R: Read + Drop, W: Write>(
    alloc: Global,
    matrix: Matrix,
    reader: R,
    writer: &mut W,
) -> Result<Refusals, TableEnd>
    ensures written { IfSome (R.remaining reader) (λ input. IfOk result (λ refusals.
        WritesTable explain_text matrix input refusals (W.contents writer.old) (W.contents writer.new))) }
    ensures end { IfSome (R.remaining reader) (λ input. IfErr result (IsTableEnd input)) }

    // For every reader: nothing is written at any other error than these two, at which a part from the front may be.
    ensures silent { result ≢ Err WriteFault → result ≢ Err OutOfMemory → OnErr result (writer.new ≡ writer.old) }
    ensures prefix { (result ≡ Err WriteFault) ⊎ (result ≡ Err OutOfMemory)
        → IfSome (R.remaining reader) (λ input. WritesTablePart explain_text matrix input (W.contents writer.old) (W.contents writer.new)) }
{
    let messages = read_table(alloc, reader)?;
    write_explained(alloc, matrix, &messages, writer)
}

/// The rows of a symbol's reports are those of the reports that the tape admitted, each once, by rising tape number. A law,
/// which does nothing.
pub fn rows_of_reports()
    ensures holds { RowsOfReports }
{}

/// The rows of a symbol's standing reports add up to its volume, if their conditions count there, and to its number of trades.
/// A law, which does nothing.
pub fn rows_add_up()
    ensures holds { RowsAddUp }
{}

/// Each figure of a symbol, and of a participant in it, has exactly one row, that of its report. A cancelled report sets
/// nothing. A law, which does nothing.
pub fn rows_of_figures()
    ensures consolidated { RowsOfFigures }
    ensures own { RowsOfOwnFigures }
    ensures cancelled { CancelledSetNothing }
{}
