//! Strict runs: if the tape refuses a row, nothing is written of its table.
ghost use Rattle.std.specs.Prelude.{◌≡◌, ◌≢◌, ◌⊎◌, ◌+◌, ◌<◌, ◌^◌, List, Err, IfErr, IfOk, IfSome, OnErr, OnOk, length};
ghost use Rattle.std.specs.Io.KnownBytes.{Appends};
ghost use Rattle.csv_messages.specs.Tables.{FIRST_ROW};
ghost use Rattle.reports.specs.declared.message.Message.{Message as Sent};
ghost use Rattle.whole_io.specs.Writing.{WritesPrefix};
ghost use Rattle.sale_matrix.specs.declared.matrix.Matrix.{Matrix as Columns};
ghost use Rattle.csv_days.specs.Days.{day_text};
ghost use Rattle.csv_days.specs.DayTexts.{text_named};
ghost use Rattle.csv_days.specs.EndDays.{HasEnded, IsEnding};
ghost use Rattle.csv_days.specs.Explained.{explain_text};
ghost use Rattle.csv_days.specs.Refusals.{RefusesNone};
ghost use Rattle.csv_days.specs.Strict.{IsListed, IsToldOf, strictly};
ghost use Rattle.csv_days.specs.TableEnds.{IsMessagesEnd, IsTableEnd, WritesTable, WritesTablePart};
ghost use Rattle.csv_days.specs.TapeRows.{tape_text};
ghost use Rattle.csv_days.specs.declared.table_end.TableEnd.TheVariants.{OutOfMemory, WriteFault as TableWriteFault};

use crate::day_reading::read_day;
use crate::end_day::EndDay;
use crate::report::write_report_of;
use crate::{DayText, Refusals, TableEnd, write_day_text};
use csv_messages::read_table;
use reports::Message;
use sale_matrix::Matrix;
use std::alloc::Global;
use std::io::{Read, Write};

/// Returns what the tape of a day refused, if the names of its rows make a listing.
fn refusals_of_day(alloc: Global, day: &EndDay) -> Result<Refusals, TableEnd>
    ensures told { (matrix : Columns) (messages : List Sent) → HasEnded matrix messages day.now → IfOk result (IsToldOf matrix messages) }
    ensures end { (matrix : Columns) (messages : List Sent) → HasEnded matrix messages day.now → IfErr result (IsMessagesEnd messages) }
    ensures unwritten { IfErr result (λ end. end ≢ TableWriteFault) }
{
    day.names.listing(alloc)?;
    Ok(day.refusals)
}

/// Returns what a tape refuses of messages, if their names make a listing.
fn refusals_of(alloc: Global, matrix: Matrix, messages: &[Message]) -> Result<Refusals, TableEnd>
    ensures told { IfOk result (IsToldOf matrix messages.now) }
    ensures end { IfErr result (IsMessagesEnd messages.now) }
    ensures unwritten { IfErr result (λ end. end ≢ TableWriteFault) }
{
    let mut day = EndDay::new(alloc, matrix);
    day.answer_all(messages)?;
    refusals_of_day(alloc, &day)
}

/// Writes the report of a day if its tape refused nothing, and returns what it refused.
fn write_report_if_admitted<W: Write>(
    alloc: Global,
    day: &EndDay,
    writer: &mut W,
) -> Result<Refusals, TableEnd>
    requires ending { IsEnding day.now }
    ensures told { (matrix : Columns) (messages : List Sent) → HasEnded matrix messages day.now → IfOk result (IsToldOf matrix messages) }
    ensures written { (matrix : Columns) (messages : List Sent) → HasEnded matrix messages day.now
        → OnOk result (Appends (W.contents writer.old) (W.contents writer.new) (strictly day_text matrix messages)) }
    ensures unwritten { IfOk result (λ refusals. RefusesNone refusals ⊎ (writer.new ≡ writer.old)) }
    ensures end { (matrix : Columns) (messages : List Sent) → HasEnded matrix messages day.now → IfErr result (IsMessagesEnd messages) }
    ensures silent { result ≢ Err TableWriteFault → OnErr result (writer.new ≡ writer.old) }
    ensures prefix { result ≡ Err TableWriteFault → (matrix : Columns) (messages : List Sent) → HasEnded matrix messages day.now
        → WritesPrefix (strictly day_text matrix messages) (W.contents writer.old) (W.contents writer.new) }
{
    let refusals = refusals_of_day(alloc, day)?;
    if refusals.is_empty() {
        write_report_of(alloc, day, writer)
    } else {
        Ok(refusals)
    }
}

/// Writes a text of messages if their tape refuses none of them, and returns what it refuses.
fn write_if_admitted<W: Write>(
    text: DayText,
    alloc: Global,
    matrix: Matrix,
    messages: &[Message],
    writer: &mut W,
) -> Result<Refusals, TableEnd>
    requires few { length messages.now + FIRST_ROW < 2 ^ 64 }
    ensures told { IfOk result (IsToldOf matrix messages.now) }
    ensures written { OnOk result (Appends (W.contents writer.old) (W.contents writer.new) (strictly (text_named text) matrix messages.now)) }
    ensures unwritten { IfOk result (λ refusals. RefusesNone refusals ⊎ (writer.new ≡ writer.old)) }
    ensures end { IfErr result (IsMessagesEnd messages.now) }
    ensures silent { result ≢ Err TableWriteFault → result ≢ Err OutOfMemory → OnErr result (writer.new ≡ writer.old) }
    ensures prefix { (result ≡ Err TableWriteFault) ⊎ (result ≡ Err OutOfMemory)
        → WritesPrefix (strictly (text_named text) matrix messages.now) (W.contents writer.old) (W.contents writer.new) }
{
    let told = refusals_of(alloc, matrix, messages)?;
    if told.is_empty() {
        write_day_text(text, alloc, matrix, messages, writer)
    } else {
        Ok(told)
    }
}

/// Reads a table whole, and writes a text of its messages if their tape refuses none of them. A report needs no second answers
/// (`report_strict_over`).
fn strict_over<R: Read + Drop, W: Write>(
    text: DayText,
    alloc: Global,
    matrix: Matrix,
    reader: R,
    writer: &mut W,
) -> Result<Refusals, TableEnd>
    ensures written { IfSome (R.remaining reader) (λ input. IfOk result (λ refusals.
        WritesTable (strictly (text_named text)) matrix input refusals (W.contents writer.old) (W.contents writer.new))) }
    ensures listed { IfSome (R.remaining reader) (λ input. OnOk result (IsListed input)) }
    ensures end { IfSome (R.remaining reader) (λ input. IfErr result (IsTableEnd input)) }
    ensures unwritten { IfOk result (λ refusals. RefusesNone refusals ⊎ (writer.new ≡ writer.old)) }
    ensures silent { result ≢ Err TableWriteFault → result ≢ Err OutOfMemory → OnErr result (writer.new ≡ writer.old) }
    ensures prefix { (result ≡ Err TableWriteFault) ⊎ (result ≡ Err OutOfMemory)
        → IfSome (R.remaining reader) (λ input. WritesTablePart (strictly (text_named text)) matrix input (W.contents writer.old) (W.contents writer.new)) }
{
    let messages = read_table(alloc, reader)?;
    write_if_admitted(text, alloc, matrix, &messages, writer)
}

/// Does what `report_over` does if the tape refuses no row of the table. If it refuses one, nothing is written, and what it
/// refused is returned. The errors are those of `report_over`.
pub fn report_strict_over<R: Read + Drop, W: Write>(
    alloc: Global,
    matrix: Matrix,
    reader: R,
    writer: &mut W,
) -> Result<Refusals, TableEnd>
    ensures written { IfSome (R.remaining reader) (λ input. IfOk result (λ refusals.
        WritesTable (strictly day_text) matrix input refusals (W.contents writer.old) (W.contents writer.new))) }
    ensures listed { IfSome (R.remaining reader) (λ input. OnOk result (IsListed input)) }
    ensures end { IfSome (R.remaining reader) (λ input. IfErr result (IsTableEnd input)) }

    // For every reader: nothing is written if a row is refused, nor at any other error than a `WriteFault`.
    ensures unwritten { IfOk result (λ refusals. RefusesNone refusals ⊎ (writer.new ≡ writer.old)) }
    ensures silent { result ≢ Err TableWriteFault → OnErr result (writer.new ≡ writer.old) }
    ensures prefix { result ≡ Err TableWriteFault
        → IfSome (R.remaining reader) (λ input. WritesTablePart (strictly day_text) matrix input (W.contents writer.old) (W.contents writer.new)) }
{
    let day = read_day(alloc, matrix, reader)?;
    write_report_if_admitted(alloc, &day, writer)
}

/// Does what `tape_over` does if the tape refuses no row of the table. If it refuses one, nothing is written, and what it
/// refuses is returned. The errors are those of `tape_over`. The messages are first answered by what a report keeps of a tape.
pub fn tape_strict_over<R: Read + Drop, W: Write>(
    alloc: Global,
    matrix: Matrix,
    reader: R,
    writer: &mut W,
) -> Result<Refusals, TableEnd>
    ensures written { IfSome (R.remaining reader) (λ input. IfOk result (λ refusals.
        WritesTable (strictly tape_text) matrix input refusals (W.contents writer.old) (W.contents writer.new))) }
    ensures listed { IfSome (R.remaining reader) (λ input. OnOk result (IsListed input)) }
    ensures end { IfSome (R.remaining reader) (λ input. IfErr result (IsTableEnd input)) }

    // For every reader: nothing is written if a row is refused, nor at any other error than these two.
    ensures unwritten { IfOk result (λ refusals. RefusesNone refusals ⊎ (writer.new ≡ writer.old)) }
    ensures silent { result ≢ Err TableWriteFault → result ≢ Err OutOfMemory → OnErr result (writer.new ≡ writer.old) }
    ensures prefix { (result ≡ Err TableWriteFault) ⊎ (result ≡ Err OutOfMemory)
        → IfSome (R.remaining reader) (λ input. WritesTablePart (strictly tape_text) matrix input (W.contents writer.old) (W.contents writer.new)) }
{
    strict_over(DayText::Tape, alloc, matrix, reader, writer)
}

/// Does what `explain_over` does if the tape refuses no row of the table. If it refuses one, nothing is written, and what it
/// refuses is returned. The errors are those of `explain_over`. The messages are first answered by what a report keeps of a
/// tape.
pub fn explain_strict_over<R: Read + Drop, W: Write>(
    alloc: Global,
    matrix: Matrix,
    reader: R,
    writer: &mut W,
) -> Result<Refusals, TableEnd>
    ensures written { IfSome (R.remaining reader) (λ input. IfOk result (λ refusals.
        WritesTable (strictly explain_text) matrix input refusals (W.contents writer.old) (W.contents writer.new))) }
    ensures listed { IfSome (R.remaining reader) (λ input. OnOk result (IsListed input)) }
    ensures end { IfSome (R.remaining reader) (λ input. IfErr result (IsTableEnd input)) }

    // For every reader: nothing is written if a row is refused, nor at any other error than these two.
    ensures unwritten { IfOk result (λ refusals. RefusesNone refusals ⊎ (writer.new ≡ writer.old)) }
    ensures silent { result ≢ Err TableWriteFault → result ≢ Err OutOfMemory → OnErr result (writer.new ≡ writer.old) }
    ensures prefix { (result ≡ Err TableWriteFault) ⊎ (result ≡ Err OutOfMemory)
        → IfSome (R.remaining reader) (λ input. WritesTablePart (strictly explain_text) matrix input (W.contents writer.old) (W.contents writer.new)) }
{
    strict_over(DayText::Explanation, alloc, matrix, reader, writer)
}
