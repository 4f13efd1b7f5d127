//! Writes the report of a journal's day.
ghost use Rattle.std.specs.Prelude.{◌≡◌, ◌≢◌, Err, IfOk, OnErr, OnOk};
ghost use Rattle.std.specs.Io.KnownBytes.{Appends};
ghost use Rattle.day_report.specs.ReportText.{report_text};
ghost use Rattle.day_report.specs.Rows.{report_rows};
ghost use Rattle.whole_io.specs.Writing.{WritesPrefix};
ghost use Rattle.whole_io.specs.declared.writing_fault.WritingFault.TheVariants.{OutOfMemory};
ghost use Rattle.tape_core.specs.Ending.{KeepsEnd};
ghost use Rattle.journal_days.specs.Days.{unlimited};

use crate::JournalDay;
use day_report::{end_rows, write_report};
use std::alloc::{AllocError, Global};
use std::io::Write;
use tape_core::{EndTape, IndexedTape};
use whole_io::{WritingFault, flush};

/// Returns what a report needs of a tape, from the messages of its entries.
fn end_of(alloc: Global, tape: &IndexedTape) -> Result<EndTape, AllocError>
    ensures kept { IfOk result (KeepsEnd (unlimited tape.now)) }
{
    let mut end = EndTape::new(alloc, tape.matrix());
    for entry in tape.entries() {
        // What one tape has admitted the other admits too, unless memory runs out.
        let Ok(_) = end.admit(entry.message) else {
            return Err(AllocError);
        };
    }
    Ok(end)
}

/// Writes the report of a journal's day, by its own matrix: the bytes that `live` writes at the end of the same day. All
/// symbols of the listing are in it, in its order. What was written is flushed at the end.
///
/// Errors: `OutOfMemory` before anything is written, and `WriteFault` if a write or the flush fails; a front of the report has
/// been written then.
pub fn write_journal_report<W: Write>(
    alloc: Global,
    day: &JournalDay,
    writer: &mut W,
) -> Result<(), WritingFault>
    ensures written { OnOk result (Appends (W.contents writer.old) (W.contents writer.new) (report_text (report_rows day.now.tape))) }
    ensures memory { result ≡ Err OutOfMemory → writer.new ≡ writer.old }
    ensures prefix { OnErr result (WritesPrefix (report_text (report_rows day.now.tape)) (W.contents writer.old) (W.contents writer.new)) }
{
    let end = end_of(alloc, &day.tape)?;
    let rows = end_rows(alloc, &end, day.tape.listing())?;
    write_report(alloc, &rows, writer)?;
    Ok(flush(writer)?)
}
