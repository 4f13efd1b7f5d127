//! Writes the text of a report, whose lines `csv` makes in memory before the first byte is written.
ghost use Rattle.std.specs.Prelude.{◌≡◌, ◌++◌, ◌∷◌, ◌⊎◌, [], Err, IfErr, IfOk, OnOk, IfSome, decimal};
ghost use Rattle.std.specs.Io.KnownBytes.{Appends};
ghost use Rattle.csv.specs.Records.{fields_of, partial_of};
ghost use Rattle.csv.specs.Writing.{default_writer, row_text};
ghost use Rattle.whole_io.specs.Writing.{WritesPrefix};
ghost use Rattle.tape_types.specs.Ranges.{IsParticipant, name_of};
ghost use Rattle.csv_lines.specs.Lines.{IsAtLineStart, lines_text};
ghost use Rattle.day_report.specs.ReportText.{line_of, mark_fields, report_text, row_fields, summary_fields, who_field};
ghost use Rattle.day_report.specs.declared.report_fault.ReportFault.TheVariants.{OutOfMemory, WriteFault};

use crate::{ReportFault, Row};
use csv::{ByteRecord, Writer};
use csv_lines::{into_text, lines_in, push_number, put_line};
use scratch_fold::{Mark, Summary};
use std::alloc::{AllocError, Global};
use std::io::Write;
use tape_types::{Participant, Symbol};
use whole_io::write_text;

/// Adds the price and the place of a mark, or two empty fields if there is no mark.
fn push_mark(line: &mut ByteRecord, mark: Option<Mark>) -> Result<(), AllocError>
    requires { partial_of line.old ≡ [] }
    ensures fields { OnOk result (fields_of line.new ≡ fields_of line.old ++ mark_fields mark) }
    ensures partial { OnOk result (partial_of line.new ≡ []) }
{
    match mark {
        None => {
            line.push_field(b"")?;
            line.push_field(b"")?;
        }
        Some(mark) => {
            push_number(line, mark.price.value())?;
            push_number(line, u64::from(mark.place.value()))?;
        }
    }
    Ok(())
}

/// Adds whose row it is: `ALL`, or the participant's letter.
fn push_who(line: &mut ByteRecord, who: Option<Participant>) -> Result<(), AllocError>
    requires { partial_of line.old ≡ [] }
    ensures fields { OnOk result (fields_of line.new ≡ fields_of line.old ++ who_field who ∷ []) }
    ensures letter { OnOk result (IfSome who IsParticipant) }
    ensures partial { OnOk result (partial_of line.new ≡ []) }
{
    match who {
        None => line.push_field(b"ALL"),
        Some(who) => line.push_field(&[who.value()]),
    }
}

/// Adds a symbol's name.
fn push_name(line: &mut ByteRecord, symbol: Symbol) -> Result<(), AllocError>
    requires { partial_of line.old ≡ [] }
    ensures fields { OnOk result (fields_of line.new ≡ fields_of line.old ++ name_of symbol ∷ []) }
    ensures partial { OnOk result (partial_of line.new ≡ []) }
{
    line.push_field(symbol.name())
}

/// Adds the marks, the volume and the trades.
fn push_summary(line: &mut ByteRecord, summary: &Summary) -> Result<(), AllocError>
    requires { partial_of line.old ≡ [] }
    ensures fields { OnOk result (fields_of line.new ≡ fields_of line.old ++ summary_fields summary.now) }
    ensures partial { OnOk result (partial_of line.new ≡ []) }
{
    push_mark(line, summary.opening)?;
    push_mark(line, summary.high)?;
    push_mark(line, summary.low)?;
    push_mark(line, summary.last)?;
    push_number(line, summary.volume)?;
    push_number(line, u64::from(summary.trades))
}

/// Writes a row. The record `line` is reused for each row.
fn put_row(writer: &mut Writer<Vec<u8>>, line: &mut ByteRecord, row: &Row) -> Result<(), AllocError>
    requires { IsAtLineStart writer.old }
    ensures start { OnOk result (IsAtLineStart writer.new) }
    ensures text { OnOk result (lines_text writer.new ≡ lines_text writer.old ++ line_of (row_fields row.now)) }
{
    line.clear();
    push_name(line, row.symbol)?;
    push_who(line, row.who)?;
    push_summary(line, &row.summary)?;
    put_line(writer, line)
}

/// Returns the text of a report: the names of the columns, and a line for each row.
fn text_of(alloc: Global, rows: &[Row]) -> Result<Vec<u8>, AllocError>
    ensures { IfOk result (λ text. text.items ≡ report_text rows.now) }
{
    let mut writer = lines_in(Vec::new(alloc));
    let mut line = ByteRecord::from_fields(
        alloc,
        &[
            b"symbol", b"who", b"open", b"open_at", b"high", b"high_at", b"low", b"low_at",
            b"last", b"last_at", b"volume", b"trades",
        ],
    )?;
    put_line(&mut writer, &line)?;
    for row in rows {
        put_row(&mut writer, &mut line, row)?;
    }
    into_text(writer)
}

/// Writes the text of these rows and nothing else: the names of the columns, and a line for each row.
///
/// Errors: `OutOfMemory` before anything is written, which leaves the writer as it was; `WriteFault` if a write fails or takes
/// no byte, which leaves a prefix of the text written and nothing else. The writer is not flushed.
pub fn write_report<W: Write>(
    alloc: Global,
    rows: &[Row],
    writer: &mut W,
) -> Result<(), ReportFault>
    ensures written { OnOk result (Appends (W.contents writer.old) (W.contents writer.new) (report_text rows.now)) }
    ensures memory { result ≡ Err OutOfMemory → writer.new ≡ writer.old }
    ensures prefix { result ≡ Err WriteFault → WritesPrefix (report_text rows.now) (W.contents writer.old) (W.contents writer.new) }
    ensures faults { IfErr result (λ fault. (fault ≡ OutOfMemory) ⊎ (fault ≡ WriteFault)) }
{
    let text = text_of(alloc, rows)?;
    write_text(writer, &text)?;
    Ok(())
}
