//! Writes a whole table, which is made before the first byte is written.
ghost use Rattle.std.specs.Prelude.{◌≡◌, ◌++◌, [], Err, IfOk, OnOk};
ghost use Rattle.std.specs.Io.KnownBytes.{Appends};
ghost use Rattle.csv.specs.Records.{fields_of};
ghost use Rattle.csv.specs.Writing.{default_writer, row_text};
ghost use Rattle.whole_io.specs.Writing.{WritesPrefix};
ghost use Rattle.csv_messages.specs.Laws.{TableRoundTrip};
ghost use Rattle.csv_lines.specs.Lines.{IsAtLineStart, lines_text};
ghost use Rattle.csv_messages.specs.TableTexts.{message_fields, table_text};
ghost use Rattle.whole_io.specs.declared.writing_fault.WritingFault.TheVariants.{OutOfMemory, WriteFault};

use crate::tape_column::TAPE_COLUMNS;
use crate::write_row;
use csv::{ByteRecord, Writer};
use csv_lines::{into_text, lines_in, put_line};
use reports::Message;
use std::alloc::{AllocError, Global};
use std::io::Write;
use whole_io::{WritingFault, write_part};

/// Adds the row of a message as a line, by a record that is used again for each. `AllocError` if memory runs out.
pub fn put_message(
    writer: &mut Writer<Vec<u8>>,
    line: &mut ByteRecord,
    message: &Message,
) -> Result<(), AllocError>
    requires { IsAtLineStart writer.old }
    ensures start { OnOk result (IsAtLineStart writer.new) }
    ensures text { OnOk result (lines_text writer.new ≡ lines_text writer.old ++ row_text default_writer (message_fields message.now)) }
{
    write_row(message, line)?;
    put_line(writer, line)
}

/// Returns the text of a table: the names of the columns, and a row for each message.
fn text_of(alloc: Global, messages: &[Message]) -> Result<Vec<u8>, AllocError>
    ensures { IfOk result (λ text. text.items ≡ table_text messages.now) }
{
    let mut writer = lines_in(Vec::new(alloc));
    let mut line = ByteRecord::from_fields(alloc, &TAPE_COLUMNS[2..11])?;
    put_line(&mut writer, &line)?;
    for message in messages {
        put_message(&mut writer, &mut line, message)?;
    }
    into_text(writer)
}

/// Writes the table of these messages and nothing else: the names of the columns, and the canonical row of each message. If
/// there is a message, `read_table` reads the messages back.
///
/// Errors: `OutOfMemory` before anything is written, and then the writer is as it was; `WriteFault` if a write fails or takes
/// no byte, and then a prefix of the text has been written and nothing else. The writer is not flushed.
pub fn write_table<W: Write>(
    alloc: Global,
    messages: &[Message],
    writer: &mut W,
) -> Result<(), WritingFault>
    ensures written { OnOk result (Appends (W.contents writer.old) (W.contents writer.new) (table_text messages.now)) }
    ensures memory { result ≡ Err OutOfMemory → writer.new ≡ writer.old }
    ensures prefix { result ≡ Err WriteFault → WritesPrefix (table_text messages.now) (W.contents writer.old) (W.contents writer.new) }
{
    let text = text_of(alloc, messages)?;
    write_part(writer, &text)
}

/// The text of every table of messages reads back as those messages.
pub fn table_round_trip()
    ensures holds { TableRoundTrip }
{}
