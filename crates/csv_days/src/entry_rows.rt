//! Writes the rows of the readable tape for the entries of any tape, one at a time.
ghost use Rattle.std.specs.Prelude.{◌≡◌, Err, OnErr, OnOk};
ghost use Rattle.std.specs.Io.KnownBytes.{Appends};
ghost use Rattle.whole_io.specs.declared.writing_fault.WritingFault.TheVariants.{OutOfMemory, WriteFault};
ghost use Rattle.whole_io.specs.Writing.{WritesPrefix};
ghost use Rattle.csv_days.specs.Laws.{RowsOfEntries};
ghost use Rattle.csv_days.specs.TapeRows.{entry_row, head_line, row_line};

use crate::tape_row::{head_text, put_row};
use csv::ByteRecord;
use csv_lines::{into_text, lines_in};
use std::alloc::{AllocError, Global};
use std::io::Write;
use std::mem;
use tape_core::{Entry, RowFigures};
use whole_io::{WritingFault, write_part};

/// Writes the line of the columns' names, with which a readable tape begins.
///
/// Errors: `OutOfMemory` before anything is written, and `WriteFault` if a write fails or takes no byte; then a prefix of the
/// line has been written and nothing else. The writer is not flushed.
pub fn write_head<W: Write>(alloc: Global, writer: &mut W) -> Result<(), WritingFault>
    ensures written { OnOk result (Appends (W.contents writer.old) (W.contents writer.new) head_line) }
    ensures memory { result ≡ Err OutOfMemory → writer.new ≡ writer.old }
    ensures prefix { OnErr result (WritesPrefix head_line (W.contents writer.old) (W.contents writer.new)) }
{
    let head = head_text(alloc)?;
    write_part(writer, &head)
}

/// Writes the rows of a tape's entries, and uses its memory again for each.
#[derive(Drop)]
pub struct EntryRows {
    alloc: Global,
    fields: ByteRecord,
    text: Vec<u8>,
}

impl EntryRows {
    /// Creates a writer of rows. It does not allocate.
    pub fn new(alloc: Global) -> EntryRows {
        EntryRows {
            alloc,
            fields: ByteRecord::new(alloc),
            text: Vec::new(alloc),
        }
    }

    /// Makes the line of an entry's row.
    fn make(&mut self, entry: &Entry, figures: &RowFigures) -> Result<(), AllocError>
        ensures { OnOk result (self.new.text.items ≡ row_line (entry_row entry.now figures.now)) }
    {
        let mut writer = lines_in(mem::replace(&mut self.text, Vec::new(self.alloc)));
        put_row(
            self.alloc,
            &mut writer,
            &mut self.fields,
            &Ok(entry.number),
            &entry.message,
            figures,
        )?;
        self.text = into_text(writer)?;
        Ok(())
    }

    /// Writes the row of an entry of a tape, with the figures of its symbol after it: the row that `tape_over` writes for the
    /// message of the entry.
    ///
    /// Errors: `OutOfMemory` before anything is written, and `WriteFault` if a write fails or takes no byte; then a prefix of
    /// the row has been written and nothing else. After either the next row can be written. The writer is not flushed, and a
    /// row is one write if the writer takes it whole.
    pub fn write<W: Write>(
        &mut self,
        entry: &Entry,
        figures: &RowFigures,
        writer: &mut W,
    ) -> Result<(), WritingFault>
        ensures written { OnOk result (Appends (W.contents writer.old) (W.contents writer.new) (row_line (entry_row entry.now figures.now))) }
        ensures memory { result ≡ Err OutOfMemory → writer.new ≡ writer.old }
        ensures prefix { OnErr result (WritesPrefix (row_line (entry_row entry.now figures.now)) (W.contents writer.old) (W.contents writer.new)) }
    {
        self.make(entry, figures)?;
        write_part(writer, &self.text)
    }
}

/// Of the rows of messages that a tape answers, those with a tape number are the rows of the entries that it appends. A law,
/// which does nothing.
pub fn rows_of_entries()
    ensures holds { RowsOfEntries }
{}
