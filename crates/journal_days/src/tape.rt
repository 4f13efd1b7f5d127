//! Writes the readable tape of a journal's day.
ghost use Rattle.std.specs.Prelude.{◌≡◌, ◌↔◌, Err, IsOk, OnErr, OnOk};
ghost use Rattle.std.specs.Io.KnownBytes.{Appends};
ghost use Rattle.whole_io.specs.Writing.{WritesPrefix};
ghost use Rattle.csv_days.specs.TapeRows.{tape_text};
ghost use Rattle.csv_days.specs.declared.table_end.TableEnd.TheVariants.{WriteFault as FailedEnd};
ghost use Rattle.whole_io.specs.declared.writing_fault.WritingFault.TheVariants.{WriteFault};
ghost use Rattle.journal_days.specs.Texts.{messages_in};

use crate::JournalDay;
use crate::messages::messages_in;
use csv_days::{Refusals, TableEnd, write_head, write_tape};
use std::alloc::Global;
use std::io::Write;
use whole_io::{WritingFault, flush};

/// Returns how the text of a tape's messages was written, without the refusals, of which there are none.
pub(crate) fn written(run: Result<Refusals, TableEnd>) -> Result<(), WritingFault>
    ensures ok { IsOk result ↔ IsOk run }
    ensures fault { (result ≡ Err WriteFault) ↔ (run ≡ Err FailedEnd) }
{
    match run {
        Ok(_) => Ok(()),
        Err(TableEnd::WriteFault) => Err(WritingFault::WriteFault),
        Err(_) => Err(WritingFault::OutOfMemory),
    }
}

/// Writes the readable tape of a journal's day: a row for each entry, as `tape` writes it for the table of the entries'
/// messages; if there is no entry, only the column names. What was written is flushed at the end.
///
/// Errors: `WriteFault` if a write or the flush fails, and `OutOfMemory`; a front of the tape has been written then.
pub fn write_journal_tape<W: Write>(
    alloc: Global,
    day: &JournalDay,
    writer: &mut W,
) -> Result<(), WritingFault>
    ensures written { OnOk result (Appends (W.contents writer.old) (W.contents writer.new)
        (tape_text day.now.tape.matrix (messages_in day.now.tape.entries))) }
    ensures prefix { OnErr result (WritesPrefix
        (tape_text day.now.tape.matrix (messages_in day.now.tape.entries)) (W.contents writer.old) (W.contents writer.new)) }
{
    let entries = day.tape.entries();
    if entries.is_empty() {
        write_head(alloc, writer)?;
        return Ok(flush(writer)?);
    }
    let messages = messages_in(alloc, entries)?;
    written(write_tape(alloc, day.tape.matrix(), &messages, writer))
}
