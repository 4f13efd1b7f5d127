//! Writes what became of the reports of a journal.
ghost use Rattle.std.specs.Prelude.{OnErr, OnOk};
ghost use Rattle.std.specs.Io.KnownBytes.{Appends};
ghost use Rattle.whole_io.specs.Writing.{WritesPrefix};
ghost use Rattle.csv_days.specs.Explained.{explain_text};
ghost use Rattle.journal_days.specs.Texts.{messages_in};

use crate::JournalDay;
use crate::messages::messages_in;
use crate::tape::written;
use csv_days::{write_explained, write_explained_head};
use std::alloc::Global;
use std::io::Write;
use whole_io::{WritingFault, flush};

/// Writes what became of the reports of a journal, as `explain` writes it for the table of the entries' messages, in which each
/// entry is in the row after its tape number; if there is no entry, only the column names. What was written is flushed at the
/// end.
///
/// Errors: `WriteFault` if a write or the flush fails, and `OutOfMemory`; a front of the text has been written then.
pub fn write_journal_explained<W: Write>(
    alloc: Global,
    day: &JournalDay,
    writer: &mut W,
) -> Result<(), WritingFault>
    ensures written { OnOk result (Appends (W.contents writer.old) (W.contents writer.new)
        (explain_text day.now.tape.matrix (messages_in day.now.tape.entries))) }
    ensures prefix { OnErr result (WritesPrefix
        (explain_text day.now.tape.matrix (messages_in day.now.tape.entries)) (W.contents writer.old) (W.contents writer.new)) }
{
    let entries = day.tape.entries();
    if entries.is_empty() {
        write_explained_head(alloc, writer)?;
        return Ok(flush(writer)?);
    }
    let messages = messages_in(alloc, entries)?;
    written(write_explained(alloc, day.tape.matrix(), &messages, writer))
}
