//! Reads the text of a batch, and writes its messages as a table.
ghost use Rattle.std.specs.Prelude.{◌≡◌, ◌≢◌, ◌⊎◌, Err, IfErr, IfOk, IfSome, Ok, OnErr, OnOk};
ghost use Rattle.std.specs.Io.KnownBytes.{Appends, Keeps};
ghost use Rattle.batch.specs.Lines.{lines_of};
ghost use Rattle.csv_messages.specs.TableTexts.{table_text};
ghost use Rattle.whole_io.specs.Writing.{WritesPrefix};
ghost use Rattle.message_texts.specs.DecodedTexts.{IsLinesEnd, IsText, IsTextEnd, line_read, lines_messages};
ghost use Rattle.message_texts.specs.Ends.{WritesText, WritesTextPart};
ghost use Rattle.message_texts.specs.declared.text_end.TextEnd.TheVariants.{OutOfMemory, WriteFault};

use crate::header::check_header;
use crate::text_lines::next_line;
use crate::{LineFault, TextEnd};
use batch::read_message;
use csv_messages::write_table;
use reports::Message;
use std::alloc::Global;
use std::io::{BufRead, BufReader, Read, Write};
use whole_io::flush;

/// How many bytes are read at once.
const READ_PIECE: usize = 65_536;

/// The number of the first line after the header.
const FIRST_LINE: u64 = 3;

/// Reads the message of a line. The error names the line by this number.
fn read_line(number: u64, line: &[u8]) -> Result<Message, TextEnd>
    ensures { result ≡ line_read number line.now }
{
    read_message(line).map_err(|refusal| TextEnd::Line(number, LineFault::Message(refusal)))
}

/// The messages of the lines that are left after a header, each taken in the memory of the previous one.
fn messages_left<B: BufRead>(
    alloc: Global,
    reader: &mut B,
    line: &mut Vec<u8>,
) -> Result<Vec<Message>, TextEnd>
    ensures messages { IfSome (B.remaining reader.old) (λ rest. IfOk result (λ messages. lines_messages (lines_of rest) ≡ Ok messages.items)) }
    ensures end { IfSome (B.remaining reader.old) (λ rest. IfErr result (IsLinesEnd (lines_of rest))) }
    ensures read { result ≢ Err WriteFault }
{
    let mut messages = Vec::new(alloc);
    for number in FIRST_LINE..u64::MAX {
        if !next_line(reader, line)? {
            return Ok(messages);
        }
        let message = read_line(number, line)?;
        if messages.push(message).is_err() {
            return Err(TextEnd::OutOfMemory);
        }
    }
    Err(TextEnd::OutOfMemory)
}

/// The messages of a text whose lines are taken from a reader.
fn text_messages<B: BufRead>(alloc: Global, reader: &mut B) -> Result<Vec<Message>, TextEnd>
    ensures messages { IfSome (B.remaining reader.old) (λ input. IfOk result (λ messages. IsText input messages.items)) }
    ensures end { IfSome (B.remaining reader.old) (λ input. IfErr result (IsTextEnd input)) }
    ensures read { result ≢ Err WriteFault }
{
    let mut first = Vec::new(alloc);
    let mut second = Vec::new(alloc);
    next_line(reader, &mut first)?;
    next_line(reader, &mut second)?;
    check_header(alloc, &first, &second)?;
    messages_left(alloc, reader, &mut first)
}

/// The messages of a text.
fn read_text<R: Read + Drop>(alloc: Global, reader: R) -> Result<Vec<Message>, TextEnd>
    ensures messages { IfSome (R.remaining reader) (λ input. IfOk result (λ messages. IsText input messages.items)) }
    ensures end { IfSome (R.remaining reader) (λ input. IfErr result (IsTextEnd input)) }
    ensures read { result ≢ Err WriteFault }
{
    let Ok(mut reader) = BufReader::with_capacity(alloc, READ_PIECE, reader) else {
        return Err(TextEnd::OutOfMemory);
    };
    text_messages(alloc, &mut reader)
}

/// Writes messages as a table, and flushes it.
fn write_flushed<W: Write>(
    alloc: Global,
    messages: &[Message],
    writer: &mut W,
) -> Result<(), TextEnd>
    ensures written { OnOk result (Appends (W.contents writer.old) (W.contents writer.new) (table_text messages.now)) }
    ensures end { IfErr result (λ end. (end ≡ OutOfMemory) ⊎ (end ≡ WriteFault)) }
    ensures prefix { WritesPrefix (table_text messages.now) (W.contents writer.old) (W.contents writer.new) }
    ensures kept { result ≡ Err OutOfMemory → writer.new ≡ writer.old }
{
    write_table(alloc, messages, writer)?;
    flush(writer)?;
    Ok(())
}

/// Reads the text of a batch whole, and writes its messages as a table: the names of the nine columns, and the canonical row of
/// each message with its moment, in order. A message whose symbol or participant is not in the header is kept, since the tape
/// refuses it. The table is made before its first byte is written, and flushed at the end.
///
/// The error says why the table was not written whole. `Line` is the first line that is wrong: a header line that is empty, has
/// too many or repeated names, or is not names with single spaces between them; or another line that has no message of the
/// participant whose letter it begins with. After `WriteFault` a prefix of the table was written, and after every other error
/// nothing.
pub fn decode_over<R: Read + Drop, W: Write>(
    alloc: Global,
    reader: R,
    writer: &mut W,
) -> Result<(), TextEnd>
    ensures written { IfSome (R.remaining reader) (λ input. OnOk result (
        WritesText (IsText input) table_text (W.contents writer.old) (W.contents writer.new))) }
    ensures end { IfSome (R.remaining reader) (λ input. IfErr result (IsTextEnd input)) }

    // Whatever the reader, nothing is written after any other error than these two.
    ensures silent { result ≢ Err WriteFault → result ≢ Err OutOfMemory → OnErr result (writer.new ≡ writer.old) }
    ensures prefix { result ≡ Err WriteFault → IfSome (R.remaining reader) (λ input.
        WritesTextPart (IsText input) table_text (W.contents writer.old) (W.contents writer.new)) }
    ensures kept { result ≡ Err OutOfMemory → writer.new ≡ writer.old }
    ensures memory { result ≡ Err OutOfMemory → IfSome (R.remaining reader) (λ input.
        Keeps (W.contents writer.old) (W.contents writer.new)
        ⊎ WritesTextPart (IsText input) table_text (W.contents writer.old) (W.contents writer.new)) }
{
    let messages = read_text(alloc, reader)?;
    write_flushed(alloc, &messages, writer)
}
