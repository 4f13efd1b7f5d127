//! Reads the rows of a table from the front: one after another, in pieces, or all.
ghost use Rattle.std.specs.Prelude.{◌≡◌, ◌⊎◌, ◌∷◌, ℕ, List, [], None, false, true, length, IfErr, IfOk, IfSome, MatchOption, OnOk};
ghost use Rattle.csv.specs.Records.{fields_of};
ghost use Rattle.csv_messages.specs.TableReading.{FailsWith, HasAll, HasColumns, HasNext, HasRead, HasRows, IsPlain, ReadsRows, TakesMore, TakesRest};
ghost use Rattle.csv_messages.specs.Tables.{IsOpenFault, IsTable, IsTableFault, fields_message, goes_over};
ghost use Rattle.csv_messages.specs.declared.table_fault.TableFault.TheVariants.{OutOfMemory, ReadFault};

use crate::columns::field_at;
use crate::fault_text::has_line_end;
use crate::records::{next_record, records_in};
use crate::{Columns, RowFault, TableFault, read_row};
use csv::{ByteRecord, Reader};
use reports::Message;
use std::alloc::Global;
use std::io::Read;

/// The number of the first row below the header row, which is row 1 as in a spreadsheet. Blank lines are not counted.
pub const FIRST_ROW: u64 = 2;

/// The rows of a table below its header row, read from the front.
#[derive(Drop)]
pub struct RowReader<R> {
    reader: Reader<R>,
    columns: Columns,
    /// The last record that was read.
    fields: ByteRecord,
    /// The number of the next row.
    number: u64,
}

/// The messages of consecutive rows.
#[derive(Drop)]
pub struct TablePiece {
    /// The messages, in order.
    pub messages: Vec<Message>,
    /// Whether no row follows.
    pub last: bool,
}

/// Reads the header row, and returns the columns that it names.
fn read_columns<R: Read>(
    reader: &mut Reader<R>,
    fields: &mut ByteRecord,
) -> Result<Columns, TableFault>
    requires plain { IsPlain reader.old }
    ensures plain { OnOk result (IsPlain reader.new) }
    ensures columns { IfOk result (λ columns. (input : List ℕ)
        → HasRead R.remaining reader.old input [] → HasColumns R.remaining reader.new input columns) }
    ensures fault { IfErr result (λ fault. (input : List ℕ) → HasRead R.remaining reader.old input [] → IsOpenFault input fault) }
{
    if !next_record(reader, fields)? {
        return Err(TableFault::NoRow);
    }
    let columns = Columns::of_header(fields)?;
    Ok(columns)
}

/// Returns whether the last field of a record has a line end.
fn goes_over(fields: &ByteRecord) -> bool
    ensures { result ≡ goes_over (fields_of fields.now) }
{
    has_line_end(field_at(fields, fields.len().saturating_sub(1)))
}

/// Returns the message of a record.
#[tactic(auto, unfolding(crate::specs::Tables::fields_message))]
fn fields_message(columns: &Columns, fields: &ByteRecord) -> Result<Message, RowFault>
    ensures { result ≡ fields_message columns.now (fields_of fields.now) }
{
    if fields.len() != columns.width() {
        return Err(RowFault::Fields {
            found: fields.len(),
            wanted: columns.width(),
            over: goes_over(fields),
        });
    }
    read_row(&columns.row(fields))
}

impl<R: Read> RowReader<R> {
    /// Reads the header row of a table. A byte order mark and blank lines are skipped.
    ///
    /// Errors: `Header` if it does not name the columns, and `NoRow` if there is none. `ReadFault` and `OutOfMemory` may come
    /// too.
    pub fn open(alloc: Global, reader: R) -> Result<RowReader<R>, TableFault>
    where
        R: Drop,
        ensures reads { IfOk result ReadsRows }
        ensures rows { IfSome (R.remaining reader) (λ input. IfOk result (λ rows. HasRows R.remaining rows input [])) }
        ensures only { IfSome (R.remaining reader) (λ input. IfErr result (IsOpenFault input)) }
        ensures fault { IfSome (R.remaining reader) (λ input. IfErr result (IsTableFault input)) }
    {
        let mut reader = records_in(alloc, reader);
        let mut fields = ByteRecord::new(alloc);
        let columns = read_columns(&mut reader, &mut fields)?;
        Ok(RowReader {
            reader,
            columns,
            fields,
            number: FIRST_ROW,
        })
    }

    /// Returns the reader underneath, which may have given more than the rows that were read.
    pub fn source(&self) -> &R {
        self.reader.get_ref()
    }

    /// Returns the message of the next row or why it is none, or `None` behind the last row. A row that is no message does not
    /// affect the next one. After an error the reader is not to be used again.
    pub fn next(&mut self) -> Result<Option<Result<Message, RowFault>>, TableFault>
        requires reads { ReadsRows self.old }
        ensures reads { OnOk result (ReadsRows self.new) }
        ensures row { IfOk result (λ found. MatchOption found (HasAll R.remaining self.old) (HasNext R.remaining self.old self.new)) }
        ensures fault { IfErr result (λ fault. (fault ≡ ReadFault) ⊎ (fault ≡ OutOfMemory)) }
    {
        if !next_record(&mut self.reader, &mut self.fields)? {
            return Ok(None);
        }
        match self.number.checked_add(1) {
            Some(number) => self.number = number,
            None => return Err(TableFault::OutOfMemory),
        }
        Ok(Some(fields_message(&self.columns, &self.fields)))
    }

    /// Returns the message of the next row, or `None` behind the last row.
    fn message(&mut self) -> Result<Option<Message>, TableFault>
        requires reads { ReadsRows self.old }
        ensures reads { OnOk result (ReadsRows self.new) }
        ensures more { IfOk result (λ read. IfSome read (λ message. TakesMore R.remaining self.old self.new (message ∷ []))) }
        ensures rest { IfOk result (λ read. read ≡ None → TakesRest R.remaining self.old []) }
        ensures fault { IfErr result (FailsWith R.remaining self.old) }
    {
        let number = self.number;
        let Some(row) = self.next()? else {
            if number == FIRST_ROW {
                return Err(TableFault::NoRow);
            }
            return Ok(None);
        };
        match row {
            Ok(message) => Ok(Some(message)),
            Err(fault) => Err(TableFault::Row(number, fault)),
        }
    }

    /// Reads the messages of the next `most` rows, or of all that are left if they are fewer; then the piece is the last.
    ///
    /// Errors, the first that applies: `Row` at a row that has another number of fields or is no message, and `NoRow` at the
    /// end if the table has no row. `ReadFault` and `OutOfMemory` may come at any row. Nothing is said of the rows behind a
    /// fault.
    pub fn piece(&mut self, alloc: Global, most: usize) -> Result<TablePiece, TableFault>
        requires reads { ReadsRows self.old }
        ensures reads { OnOk result (ReadsRows self.new) }
        ensures more { IfOk result (λ piece. piece.last ≡ false → TakesMore R.remaining self.old self.new piece.messages.items) }
        ensures rest { IfOk result (λ piece. piece.last ≡ true → TakesRest R.remaining self.old piece.messages.items) }
        ensures most { IfOk result (λ piece. piece.last ≡ false → length piece.messages.items ≡ most) }
        ensures fault { IfErr result (FailsWith R.remaining self.old) }
    {
        let mut messages = Vec::new(alloc);
        for _taken in 0..most {
            let Some(message) = self.message()? else {
                return Ok(TablePiece {
                    messages,
                    last: true,
                });
            };
            if messages.push(message).is_err() {
                return Err(TableFault::OutOfMemory);
            }
        }
        Ok(TablePiece {
            messages,
            last: false,
        })
    }
}

/// Reads the messages of a table: a header row, and then a row for each message, in order. The message at index `i` is that of
/// row `FIRST_ROW + i`. A byte order mark and blank lines are skipped.
///
/// Errors, the first that applies: `Header` if the first row does not name the columns, `Row` at a row that has another number
/// of fields or is no message, and `NoRow` at the end if no row was read. `ReadFault` and `OutOfMemory` may come at any row.
/// What was read is dropped.
pub fn read_table<R: Read + Drop>(alloc: Global, reader: R) -> Result<Vec<Message>, TableFault>
    ensures messages { IfSome (R.remaining reader) (λ input. IfOk result (λ messages. IsTable input messages.items)) }
    ensures fault { IfSome (R.remaining reader) (λ input. IfErr result (IsTableFault input)) }
{
    let mut rows = RowReader::open(alloc, reader)?;
    let piece = rows.piece(alloc, usize::MAX)?;
    if !piece.last {
        return Err(TableFault::OutOfMemory);
    }
    Ok(piece.messages)
}
