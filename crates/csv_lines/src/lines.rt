//! Lines of fields in memory that is used again: `lines_in` begins a text, `put_line` adds a line, and `into_text` returns the
//! text. `line_of` makes one line alone.
ghost use Rattle.std.specs.Prelude.{◌≡◌, ◌++◌, [], IfOk, OnOk, map};
ghost use Rattle.csv.specs.Records.{fields_of};
ghost use Rattle.csv.specs.Writing.{default_writer, row_text};
ghost use Rattle.csv_lines.specs.Lines.{IsAtLineStart, lines_text};

use csv::{ByteRecord, Writer, WriterBuilder};
use std::alloc::{AllocError, Global};

/// Returns a writer of lines into this memory, whose former text is dropped. It fails only if memory runs out.
pub fn lines_in(mut text: Vec<u8>) -> Writer<Vec<u8>>
    ensures start { IsAtLineStart result }
    ensures text { lines_text result ≡ [] }
{
    text.clear();
    WriterBuilder::new().from_writer(text)
}

/// Writes a line of fields. `AllocError` if memory runs out.
pub fn put_line(writer: &mut Writer<Vec<u8>>, fields: &ByteRecord) -> Result<(), AllocError>
    requires { IsAtLineStart writer.old }
    ensures start { OnOk result (IsAtLineStart writer.new) }
    ensures text { OnOk result (lines_text writer.new ≡ lines_text writer.old ++ row_text default_writer (fields_of fields.now)) }
{
    writer.write_byte_record(fields).map_err(|_| AllocError)
}

/// Returns the lines that were written. `AllocError` if memory runs out.
pub fn into_text(writer: Writer<Vec<u8>>) -> Result<Vec<u8>, AllocError>
    ensures { IfOk result (λ text. text.items ≡ lines_text writer) }
{
    writer.into_inner().map_err(|_| AllocError)
}

/// Returns the line of these fields, such as that of the columns' names. `AllocError` if memory runs out.
pub fn line_of(alloc: Global, fields: &[&[u8]]) -> Result<Vec<u8>, AllocError>
    ensures { IfOk result (λ line. line.items ≡ row_text default_writer (map (λ field. field.now) fields.now)) }
{
    let mut writer = lines_in(Vec::new(alloc));
    put_line(&mut writer, &ByteRecord::from_fields(alloc, fields)?)?;
    into_text(writer)
}
