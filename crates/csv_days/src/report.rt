//! Reads a table and writes its report.
ghost use Rattle.std.specs.Prelude.{◌≡◌, ◌≢◌, ◌⊎◌, List, Err, IfErr, IfOk, IfSome, OnErr, OnOk};
ghost use Rattle.std.specs.Io.KnownBytes.{Appends};
ghost use Rattle.day_report.specs.ReportText.{report_text};
ghost use Rattle.day_report.specs.Rows.{report_rows};
ghost use Rattle.whole_io.specs.Writing.{WritesPrefix};
ghost use Rattle.tape_core.specs.Answers.{answers};
ghost use Rattle.csv_days.specs.Days.{day_text, first_tape};
ghost use Rattle.csv_days.specs.EndDays.{HasEnded, IsEnding};
ghost use Rattle.reports.specs.declared.message.Message.{Message as Sent};
ghost use Rattle.sale_matrix.specs.declared.matrix.Matrix.{Matrix as Columns};
ghost use Rattle.tape_core.specs.Ending.{IsKept, KeepsEnd};
ghost use Rattle.tape_core.specs.Tape.{TapeState};
ghost use Rattle.csv_days.specs.Refusals.{AreRefusals};
ghost use Rattle.csv_days.specs.StaleRows.{first_stale};
ghost use Rattle.csv_days.specs.TableEnds.{IsMessagesEnd, IsTableEnd, WritesTable, WritesTablePart};
ghost use Rattle.csv_days.specs.declared.table_end.TableEnd.TheVariants.{OutOfMemory, WriteFault as TableWriteFault};

use crate::day_reading::read_day;
use crate::end_day::EndDay;
use crate::table_end::flushed;
use crate::{Refusals, TableEnd};
use day_report::{end_rows, write_report};
use sale_matrix::Matrix;
use std::alloc::Global;
use std::io::{Read, Write};
use tape_core::EndTape;
use tape_types::Listing;

/// Writes the report of a tape of which only the end is asked, by its listing.
fn write_end_report<W: Write>(
    alloc: Global,
    tape: &EndTape,
    listing: &Listing,
    writer: &mut W,
) -> Result<(), TableEnd>
    requires kept { IsKept tape.now }
    ensures written { OnOk result ((t : TapeState) → KeepsEnd t tape.now → t.listing ≡ listing.now
        → Appends (W.contents writer.old) (W.contents writer.new) (report_text (report_rows t))) }
    ensures memory { result ≢ Err TableWriteFault → OnErr result (writer.new ≡ writer.old) }
    ensures prefix { result ≡ Err TableWriteFault → (t : TapeState) → KeepsEnd t tape.now → t.listing ≡ listing.now
        → WritesPrefix (report_text (report_rows t)) (W.contents writer.old) (W.contents writer.new) }
    ensures ends { IfErr result (λ end. (end ≡ OutOfMemory) ⊎ (end ≡ TableWriteFault)) }
{
    let rows = end_rows(alloc, tape, listing)?;
    write_report(alloc, &rows, writer)?;
    Ok(())
}

/// Writes the report of a day, and returns what its tape refused.
pub fn write_report_of<W: Write>(
    alloc: Global,
    day: &EndDay,
    writer: &mut W,
) -> Result<Refusals, TableEnd>
    requires ending { IsEnding day.now }
    ensures refused { (matrix : Columns) (messages : List Sent) → HasEnded matrix messages day.now
        → IfOk result (AreRefusals (answers (first_tape matrix messages) messages)) }
    ensures stale { (matrix : Columns) (messages : List Sent) → HasEnded matrix messages day.now
        → IfOk result (λ refusals. refusals.stale ≡ first_stale (first_tape matrix messages) messages) }
    ensures written { (matrix : Columns) (messages : List Sent) → HasEnded matrix messages day.now
        → OnOk result (Appends (W.contents writer.old) (W.contents writer.new) (day_text matrix messages)) }
    ensures end { (matrix : Columns) (messages : List Sent) → HasEnded matrix messages day.now → IfErr result (IsMessagesEnd messages) }
    ensures silent { result ≢ Err TableWriteFault → OnErr result (writer.new ≡ writer.old) }
    ensures prefix { result ≡ Err TableWriteFault → (matrix : Columns) (messages : List Sent) → HasEnded matrix messages day.now
        → WritesPrefix (day_text matrix messages) (W.contents writer.old) (W.contents writer.new) }
{
    let listing = day.names.listing(alloc)?;
    write_end_report(alloc, &day.tape, &listing, writer)?;
    flushed(writer, &day.refusals)
}

/// Reads a table whole, answers its messages in order by a tape of the names in it, in the order in which they first appear,
/// and writes the report of the tape. Returns what the tape refused. What was written is flushed at the end. The messages are
/// answered as they are read, and not kept.
///
/// If there is no report the error says why, and nothing is written except at a `WriteFault`.
pub fn report_over<R: Read + Drop, W: Write>(
    alloc: Global,
    matrix: Matrix,
    reader: R,
    writer: &mut W,
) -> Result<Refusals, TableEnd>
    ensures written { IfSome (R.remaining reader) (λ input. IfOk result (λ refusals.
        WritesTable day_text matrix input refusals (W.contents writer.old) (W.contents writer.new))) }
    ensures end { IfSome (R.remaining reader) (λ input. IfErr result (IsTableEnd input)) }

    // For every reader: nothing is written unless a write fails, and then a part from the front.
    ensures silent { result ≢ Err TableWriteFault → OnErr result (writer.new ≡ writer.old) }
    ensures prefix { result ≡ Err TableWriteFault
        → IfSome (R.remaining reader) (λ input. WritesTablePart day_text matrix input (W.contents writer.old) (W.contents writer.new)) }
{
    let day = read_day(alloc, matrix, reader)?;
    write_report_of(alloc, &day, writer)
}
